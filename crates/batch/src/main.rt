// Reads a stream of models from standard input, each with its work words and its room for lines, and prints for each what document 01's
// program would, with an empty line behind it. tests/oracle/batch.py says what a stream holds. It stops at the first model that does not
// fit its buffers.
#![tactic(auto)]

use cases::{FILE, Stop, read_part, read_size};
use lustre::{LINES, Line};
use response::OUT;
use std::io;
use std::io::Read;

// The most work words that a model is lent.
const WORK: usize = 65536;

// The most models that are read.
const MOST: u64 = 100000000;

// Memory for the models, one after the other.
// Kept: plain arrays, of which `read_part` lends the filled part; an `ArrayVec` would be filled first.
#[derive(Drop)]
struct Buffers {
    file: [u8; FILE],
    work: [u64; WORK],
    out: [u8; OUT],
}

// Reads the next model and prints what is said of it. Each call is lent blank lines.
fn model(reader: &mut impl Read, rt: &impl Print, buffers: &mut Buffers) -> Result<(), Stop> {
    let work_count = read_size(reader)?;
    let room = read_size(reader)?;
    let size = read_size(reader)?;
    let file = read_part(reader, &mut buffers.file, size)?;
    let work = buffers.work.get_mut(..work_count).ok_or(Stop::Ended)?;
    let mut blank = [Line::default(); LINES];
    let lines = blank.get_mut(..room).ok_or(Stop::Ended)?;
    let answer = response::answer_to(file, work, lines);
    let n = response::render(&mut buffers.out, format::text_in(file), answer, lines);
    rt.write_all(buffers.out.get(..n).ok_or(Stop::Ended)?)?;
    rt.write_all(b"\n")?;
    Ok(())
}

fn run(reader: &mut impl Read, rt: &impl Print, buffers: &mut Buffers) -> Result<(), Stop> {
    for _ in 0..MOST {
        model(reader, rt, buffers)?;
    }
    Ok(())
}

fn main(rt: HostRuntime) -> io::Result<()> {
    let mut buffers = Buffers {
        file: [0; FILE],
        work: [0; WORK],
        out: [0; OUT],
    };
    cases::finish(run(&mut rt.reader(), &rt, &mut buffers))
}
