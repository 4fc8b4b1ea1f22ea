// Runs the check of the input on damaged inputs and prints its answers, a line a case; what they should be stands in `stdout`. Both files
// are made by tests/inputs/make, whose answers come from a decoder of its own. It reads from standard input; the form of a case is said
// there. It stops at the first case that does not fit its buffers, and after 4,096 cases.
#![tactic(auto)]

use cases::{Stop, label, read_part, read_size};
use lustre::{Numbers, Refusal};
use std::io;
use std::io::Read;

// Room for the kinds and words of a case and for its text: a little more than document 01 lets pass.
// Kept: plain arrays, of which `read_part` lends the filled part; an `ArrayVec` would be filled first.
const RECORDS: usize = 4200;

const TEXT: usize = 16500;

// The most cases that are read.
const MOST: u64 = 4096;

// Reads n words in one piece to the start of a buffer.
fn read_words<'a>(
    reader: &mut impl Read,
    buffer: &'a mut [u64],
    n: usize,
) -> Result<&'a [u64], Stop> {
    let mut bytes = [0u8; 8 * RECORDS];
    let words = buffer.get_mut(..n).ok_or(Stop::Ended)?;
    let (eights, _) = read_part(reader, &mut bytes, 8 * words.len())?.as_chunks::<8>();
    for (i, word) in words.iter_mut().enumerate() {
        *word = u64::from_le_bytes(eights[i]);
    }
    Ok(words)
}

fn print_answer(rt: &impl Print, answer: Result<Option<u64>, Refusal>) -> io::Result<()> {
    match answer {
        Ok(Some(names)) => println!(rt; "accepted {names}"),
        Ok(None) => println!(rt; "blank"),
        Err(refusal) => {
            let n = Numbers::from(refusal);
            println!(rt; "refused {} at {}", n.refusal, n.first)
        }
    }
}

// Reads the next case, checks it and prints the answer.
fn case(reader: &mut impl Read, rt: &impl Print) -> Result<(), Stop> {
    label(reader, rt)?;
    let kind_count = read_size(reader)?;
    let word_count = read_size(reader)?;
    let text_len = read_size(reader)?;
    let work = read_size(reader)?;
    let mut kinds = [0u8; RECORDS];
    let mut words = [0u64; RECORDS];
    let mut text = [0u8; TEXT];
    let kinds = read_part(reader, &mut kinds, kind_count)?;
    let words = read_words(reader, &mut words, word_count)?;
    let text = read_part(reader, &mut text, text_len)?;
    print_answer(rt, input::check_input(kinds, words, text, work))?;
    Ok(())
}

fn run(reader: &mut impl Read, rt: &impl Print) -> Result<(), Stop> {
    for _ in 0..MOST {
        case(reader, rt)?;
    }
    Ok(())
}

fn main(rt: HostRuntime) -> io::Result<()> {
    cases::finish(run(&mut rt.reader(), &rt))
}
