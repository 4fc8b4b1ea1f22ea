// What the test programs share: reading a stream of cases, of which each ends the stream that does not fit its buffers, the label of a case,
// and buffers that are filled with marks, none of them zero, so that what a call leaves alone is seen. No function has a `requires`.
#![tactic(auto)]

ghost use Rattle.std.specs.Prelude.{◌≡◌, ℕ, ◌-◌, List, length, drop, replicate, IfOk};
ghost use Rattle.std.specs.Int.{w32, w64, from_le_bytes};
ghost use Rattle.std.specs.Io.KnownBytes.{Consumes};
ghost use Rattle.std.specs.IoError.{error_kind};
ghost use Rattle.cases.specs.Lines.{blank};
ghost use Rattle.cases.specs.Stop.{stop_of, finished};

use lustre::{LINES, Line};
use std::io;
use std::io::{ErrorKind, Read};

// The mark at place 0; those behind it are larger.
const MARK: u64 = 0x5555555555555555;

// The bytes of a line.
const LINE: usize = 48;

// Room for a file of a few bytes more than any that is not refusal 1.
pub const FILE: usize = 60000;

// Why no case is read: the input ends or the next case does not fit its buffers, or reading or printing failed.
#[derive(Drop)]
pub enum Stop {
    Ended,
    Failed(io::Error),
}

impl From<io::Error> for Stop {
    ghost from_gives = { λ e stop. stop ≡ stop_of (error_kind e) e };

    fn from(e: io::Error) -> Stop {
        match e.kind() {
            ErrorKind::UnexpectedEof => Stop::Ended,
            _ => Stop::Failed(e),
        }
    }
}

// The end of a stream of cases is no failure.
pub fn finish(outcome: Result<(), Stop>) -> io::Result<()>
    ensures { result ≡ finished outcome }
{
    match outcome {
        Ok(()) | Err(Stop::Ended) => Ok(()),
        Err(Stop::Failed(e)) => Err(e),
    }
}

// Reads n bytes to the start of a buffer.
pub fn read_part<'a, R: Read>(
    reader: &mut R,
    buffer: &'a mut [u8],
    n: usize,
) -> Result<&'a [u8], Stop>
    ensures { IfOk result (λ part. Consumes (R.remaining reader.old) (R.remaining reader.new) part.now × (length part.now ≡ n)) }
{
    let part = buffer.get_mut(..n).ok_or(Stop::Ended)?;
    reader.read_exact(part)?;
    Ok(part)
}

// Reads as many bytes as the array has.
fn read_array<R: Read, const N: usize>(reader: &mut R) -> Result<[u8; N], Stop>
    ensures { IfOk result (λ bytes. Consumes (R.remaining reader.old) (R.remaining reader.new) bytes × (length bytes ≡ N)) }
{
    let mut bytes = [0; N];
    reader.read_exact(&mut bytes)?;
    Ok(bytes)
}

// Reads a number of four bytes, low byte first.
pub fn read_size<R: Read>(reader: &mut R) -> Result<usize, Stop>
    ensures { IfOk result (λ n. (bytes : List ℕ) × Consumes (R.remaining reader.old) (R.remaining reader.new) bytes × (length bytes ≡ 4)
        × (n ≡ from_le_bytes w32 bytes)) }
{
    Ok(u32::from_le_bytes(read_array(reader)?) as usize)
}

// Reads a number of eight bytes, low byte first.
pub fn read_word<R: Read>(reader: &mut R) -> Result<u64, Stop>
    ensures { IfOk result (λ n. (bytes : List ℕ) × Consumes (R.remaining reader.old) (R.remaining reader.new) bytes × (length bytes ≡ 8)
        × (n ≡ from_le_bytes w64 bytes)) }
{
    Ok(u64::from_le_bytes(read_array(reader)?))
}

// The line of 48 bytes, eight bytes a field.
fn line_of(bytes: &[u8; LINE]) -> Line {
    let (fields, _) = bytes.as_chunks::<8>();
    Line {
        code: u64::from_le_bytes(fields[0]),
        place: u64::from_le_bytes(fields[1]),
        number: u64::from_le_bytes(fields[2]),
        equation: u64::from_le_bytes(fields[3]),
        step: u64::from_le_bytes(fields[4]),
        name: u64::from_le_bytes(fields[5]),
    }
}

// Reads n lines in one piece; those behind them are blank.
pub fn read_lines<R: Read>(reader: &mut R, n: usize) -> Result<[Line; LINES], Stop>
    ensures { IfOk result (λ lines. drop n lines ≡ replicate (1024 - n) blank) }
{
    let mut lines = [Line::default(); LINES];
    let mut bytes = [0u8; LINE * LINES];
    if n > LINES {
        return Err(Stop::Ended);
    }
    let (read, _) = read_part(reader, &mut bytes, LINE * n)?.as_chunks::<LINE>();
    for (i, line) in lines[..n].iter_mut().enumerate() {
        *line = line_of(&read[i]);
    }
    Ok(lines)
}

// Reads the label of the next case, its length before it, and prints it.
pub fn label(reader: &mut impl Read, rt: &impl Print) -> Result<(), Stop> {
    let [size]: [u8; 1] = read_array(reader)?;
    let mut text = [0u8; 255];
    let text = read_part(reader, &mut text, usize::from(size))?;
    rt.write_all(text)?;
    rt.write_all(b": ")?;
    Ok(())
}

// The mark of a place.
fn mark(i: usize) -> u64 {
    MARK + i as u64 % 65536
}

// Fills a buffer with marks.
pub fn fill(words: &mut [u64]) {
    for (i, word) in words.iter_mut().enumerate() {
        *word = mark(i);
    }
}

// Says whether a buffer has its marks.
pub fn is_filled(words: &[u64]) -> bool {
    words.iter().enumerate().all(|(i, word)| *word == mark(i))
}

// Says whether every word is zero.
pub fn is_zero(words: &[u64]) -> bool {
    words.iter().all(|word| *word == 0)
}
