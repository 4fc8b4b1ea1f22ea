// Runs document 01's worked example, its cases tried at the edges and each refusal, with the work memory and the room of each case.
// tests/edges/make makes its standard input.
#![tactic(auto)]

use std::io;

fn main(rt: HostRuntime) -> io::Result<()> {
    trials::run(&mut rt.reader(), &rt)
}
