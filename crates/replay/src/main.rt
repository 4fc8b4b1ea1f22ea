// Runs stored models and compares with the answers by the Rust that are stored beside them, all six words of each line; then
// prints how many agree. What the call must leave alone and what it must make zero is compared too. It reads from standard input;
// tests/replay/make makes that file and says what it holds. It stops at the first model that does not fit its buffers.
#![tactic(auto)]

use cases::{Stop, read_lines, read_part, read_size, read_word};
use format::FILE;
use lustre::{Answer, LINES, Line};
use response::WORK;
use std::io;
use std::io::Read;

// The most models that are read.
const MOST: u64 = 100000;

// Says whether a file gets this answer and these lines, and leaves zero work memory.
fn agrees(file: &[u8], due: Answer, due_lines: &[Line; LINES]) -> bool {
    let mut work = [0u64; WORK];
    cases::fill(&mut work);
    let mut lines = [Line::default(); LINES];
    let answer = response::answer_to(file, &mut work, &mut lines);
    answer == due && lines == *due_lines && cases::is_zero(&work)
}

// Reads the next model and what is due, and says whether it agrees.
fn replay(reader: &mut impl Read) -> Result<bool, Stop> {
    let size = read_size(reader)?;
    let count = read_size(reader)?;
    let followed = read_word(reader)?;
    let mut file = [0u8; FILE];
    let file = read_part(reader, &mut file, size)?;
    let lines = read_lines(reader, count)?;
    Ok(agrees(file, Answer::Report(count as u64, followed), &lines))
}

fn main(rt: HostRuntime) -> io::Result<()> {
    let mut reader = rt.reader();
    let mut models = 0u64;
    let mut agree = 0u64;
    for _ in 0..MOST {
        match replay(&mut reader) {
            Ok(true) => agree += 1,
            Ok(false) => println!(rt; "model {models} differs")?,
            Err(Stop::Ended) => break,
            Err(Stop::Failed(e)) => return Err(e),
        }
        models += 1;
    }
    println!(rt; "{models} models, {agree} agree")
}
