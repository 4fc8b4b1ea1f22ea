// Runs a stream of cases, each with its work memory and its room for lines, and prints for each whether it agrees: what is printed for it,
// the lines stored, the blank lines behind them, and the work memory. It reads from standard input; tests/edges/make says what a case holds.
// The programs `edges` and `explained` are this on a file of their own.
#![tactic(auto)]

use cases::{FILE, Stop, fill, is_filled, is_zero, label, read_lines, read_part, read_size};
use lustre::{Answer, LINES, Line};
use std::io;
use std::io::Read;

// Room for what is printed for a case.
const TEXT: usize = 65536;

// The most work words that a case is lent.
const WORK: usize = 8192;

// The most cases that are read.
const MOST: u64 = 100000;

// Says whether the work memory is zero after a report and after refusal 7, and as it was after any other refusal.
fn work_holds(answer: Answer, work: &[u64]) -> bool {
    match answer {
        Answer::Report(..) | Answer::MoreLines(_) => is_zero(work),
        Answer::Refused(_) => is_filled(work),
    }
}

// Says whether this text is printed for the answer to a file and its lines.
fn prints(file: &[u8], answer: Answer, lines: &[Line], text: &[u8]) -> bool {
    let mut out = [0u8; TEXT];
    let n = response::render(&mut out, format::text_in(file), answer, lines);
    out.get(..n) == Some(text)
}

// Makes the call on a file with this work memory and room for lines lent, and compares.
fn agrees(file: &[u8], work: usize, room: usize, text: &[u8], due: &[Line; LINES]) -> bool {
    let mut words = [0u64; WORK];
    let mut lines = [Line::default(); LINES];
    if work > WORK || room > LINES {
        return false;
    }
    let work = &mut words[..work];
    fill(work);
    let answer = response::answer_to(file, work, &mut lines[..room]);
    prints(file, answer, &lines, text) && lines == *due && work_holds(answer, work)
}

// Reads the next case, runs it and prints what became of it.
// Kept: plain arrays, of which `read_part` lends the filled part; an `ArrayVec` would be filled first.
fn case(reader: &mut impl Read, rt: &impl Print) -> Result<(), Stop> {
    label(reader, rt)?;
    let work = read_size(reader)?;
    let room = read_size(reader)?;
    let size = read_size(reader)?;
    let printed = read_size(reader)?;
    let stored = read_size(reader)?;
    if stored > LINES {
        return Err(Stop::Ended);
    }
    let mut file = [0u8; FILE];
    let mut text = [0u8; TEXT];
    let file = read_part(reader, &mut file, size)?;
    let text = read_part(reader, &mut text, printed)?;
    let lines = read_lines(reader, stored)?;
    if agrees(file, work, room, text, &lines) {
        println!(rt; "agrees")?;
    } else {
        println!(rt; "differs")?;
    }
    Ok(())
}

fn run_cases(reader: &mut impl Read, rt: &impl Print) -> Result<(), Stop> {
    for _ in 0..MOST {
        case(reader, rt)?;
    }
    Ok(())
}

// Runs the cases until there are no more; it stops at the first that does not fit its buffers.
pub fn run(reader: &mut impl Read, rt: &impl Print) -> io::Result<()> {
    cases::finish(run_cases(reader, rt))
}
