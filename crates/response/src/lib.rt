// From the bytes of a file to what is printed for it: document 01, program `check`. `answer_to` takes a file apart and makes the call,
// with what is lent to it; `render` gives the bytes of an answer and the lines that were stored; `respond` is the two together with the
// 4,096 work words and 1,024 lines that the program lends. Any bytes are taken.
#![tactic(auto)]

ghost use Rattle.std.specs.Prelude.{◌≤◌, ◌≡◌, map, length, take};
ghost use Rattle.lustre.specs.Names.{names_of};
ghost use Rattle.format.specs.Output.{line_count, line, output_lines};
ghost use Rattle.format.specs.Buffers.{Filled};
ghost use Rattle.response.specs.Response.{any_error, status_of, Answered, Responded};

use checker::check_project;
use format::output::{render_answer, render_line};
use format::{decode, kinds_in, text_in};
use lustre::codes::W0051;
use lustre::{Answer, LINES, Line, MAX_RECORDS, MIN_WORK, Refusal};

// The work words that the program lends: the fewest that may be lent.
pub const WORK: usize = MIN_WORK;

// Room for all that it prints: a header of at most 57 bytes and its lines of at most 171.
pub const OUT: usize = 57 + 171 * LINES;

// The status of a run, by the digit that the program gives: a report without an error, one with an error, and a refusal.
#[derive(Clone, Copy, PartialEq, Eq)]
pub enum Status {
    Clean = 0,
    Errors = 1,
    Refused = 2,
}

impl Status {
    ghost use Rattle.std.specs.Prelude.{◌≡◌, ◌<◌};
    ghost use Rattle.response.specs.Response.{number_of};

    // The number of a status.
    #[tactic(auto, unfolding(crate::specs::Response::number_of))]
    pub fn number(self) -> u8
        ensures number { result ≡ number_of self }
        ensures below_three { result < 3 }
    {
        self as u8
    }
}

// What is said of a file: the number of bytes printed, and the status.
#[derive(Clone, Copy)]
pub struct Response {
    pub size: usize,
    pub status: Status,
}

// The answer to a file, with this work memory and these lines lent; refusal 1 for a wrong file, which changes nothing.
pub fn answer_to(file: &[u8], work: &mut [u64], lines: &mut [Line]) -> Answer
    ensures { Answered file.now work.old lines.old result work.new lines.new }
{
    let mut words = [0u64; MAX_RECORDS];
    match decode(file, &mut words) {
        Some(sizes) => {
            let words = &words[..sizes.records];
            check_project(kinds_in(file), words, text_in(file), work, lines)
        }
        None => Answer::Refused(Refusal::Sizes),
    }
}

// The lines that are printed behind the header: a report's, and none behind a refusal.
#[tactic(auto, using(crate::proofs::Printing::shown))]
fn printed(a: Answer, lines: &[Line]) -> &[Line]
    ensures { result.now ≡ take (line_count a) lines.now }
{
    match a {
        Answer::Report(count, _) => &lines[..(count as usize).min(lines.len())],
        Answer::Refused(_) | Answer::MoreLines(_) => &[],
    }
}

// Renders lines from a position on, as many as fit.
fn render_lines(out: &mut [u8], start: usize, text: &[u8], lines: &[Line]) -> usize
    requires { start ≤ length out.old }
    ensures { Filled (map (line (names_of text.now)) lines.now) out.old start result out.new }
{
    let mut at = start;
    for line in lines {
        match render_line(&mut out[at..], text, *line) {
            Some(size) => at += size,
            None => return at,
        }
    }
    at
}

// Renders an answer and its lines, as many of the printed lines as fit, and answers the number of bytes.
pub fn render(out: &mut [u8], text: &[u8], a: Answer, lines: &[Line]) -> usize
    ensures { Filled (output_lines a lines.now text.now) out.old 0 result out.new }
{
    match render_answer(out, a) {
        Some(start) => render_lines(out, start, text, printed(a, lines)),
        None => 0,
    }
}

// Says whether one of the lines is an error.
fn has_error(lines: &[Line]) -> bool
    ensures { result ≡ any_error lines.now }
{
    lines.iter().any(|line| line.code != W0051)
}

// The status of an answer and its lines.
#[tactic(auto, unfolding(crate::specs::Response::status_of))]
fn status_of(a: Answer, lines: &[Line]) -> Status
    ensures { result ≡ status_of a lines.now }
{
    match a {
        Answer::Report(..) if has_error(printed(a, lines)) => Status::Errors,
        Answer::Report(..) => Status::Clean,
        Answer::Refused(_) | Answer::MoreLines(_) => Status::Refused,
    }
}

// Renders what is printed for a file.
pub fn respond(file: &[u8], out: &mut [u8]) -> Response
    ensures responded { Responded file.now out.old result out.new }
    ensures size_in_bounds { result.size ≤ length out.old }
{
    let mut work = [0u64; WORK];
    let mut lines = [Line::default(); LINES];
    let a = answer_to(file, &mut work, &mut lines);
    Response {
        size: render(out, text_in(file), a, &lines),
        status: status_of(a, &lines),
    }
}
