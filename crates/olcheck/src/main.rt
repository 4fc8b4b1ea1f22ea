// Document 01's program `check`: reads a file from standard input and prints the report on it, or the refusal. It also writes one digit to
// file descriptor 3, if that is open for writing: 0 for a report without an error, 1 for one with an error, 2 for a refusal.
#![tactic(auto)]

ghost use Rattle.std.specs.Prelude.{◌≤◌, length, IfOk};

use response::{OUT, Status, respond};
use std::fs::OpenOptions;
use std::io::{Read, Write};
use std::os::unix::fs::PermissionsExt;
use std::rt::Files;
use std::{fs, io};

// One byte more than the longest file that is not refusal 1, so that a longer one is seen to be wrong.
const FILE: usize = format::FILE + 1;

// The name of file descriptor 3. It is a link, whose own mode says how the descriptor is open.
const DESCRIPTOR: &str = "/proc/self/fd/3";

// Reads until the buffer is full or the input ends, and returns how many bytes it put at its start.
// Kept: a read may give fewer bytes than are asked for, so the loop goes by the bytes read, which no `for` counts.
fn read_full(reader: &mut impl Read, buffer: &mut [u8]) -> io::Result<usize>
    ensures { IfOk result (λ n. n ≤ length buffer.new) }
{
    let mut done = 0;
    while done < buffer.len() {
        let n = reader.read(&mut buffer[done..])?;
        if n == 0 {
            break;
        }
        done += n;
    }
    Ok(done)
}

// Writes a digit to file descriptor 3 where that is open for writing; fails where it is closed.
fn write_digit(rt: &impl Files, digit: &[u8]) -> io::Result<()> {
    let mode = fs::symlink_metadata(rt, DESCRIPTOR)?.permissions().mode();
    if mode & 0o200 != 0 {
        OpenOptions::new()
            .append(true)
            .open(rt, DESCRIPTOR)?
            .write_all(digit)?;
    }
    Ok(())
}

// Writes the digit of a status; that the descriptor may be closed is no fault.
fn tell(rt: &impl Files, status: Status) {
    let _ = write_digit(rt, &[b'0' + status.number()]);
}

fn main(rt: HostRuntime) -> io::Result<()> {
    let mut file = [0u8; FILE];
    let n = read_full(&mut rt.reader(), &mut file)?;
    let mut out = [0u8; OUT];
    let r = respond(&file[..n], &mut out);
    rt.write_all(&out[..r.size])?;
    tell(&rt, r.status);
    Ok(())
}
