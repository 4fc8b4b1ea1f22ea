// Runs the models of docs/RULES.md and docs/DIFFERENCES.md: the smallest of each code and each refusal, those beside them, and one of each
// difference. `tools/rules write` makes its standard input out of tests/rules and tests/differences.
#![tactic(auto)]

use std::io;

fn main(rt: HostRuntime) -> io::Result<()> {
    trials::run(&mut rt.reader(), &rt)
}
