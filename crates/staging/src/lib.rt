// Batches of the report in the work memory: document 01, 'What is lent'. `first_batch` answers the refusals of what is lent, or counts all
// lines and writes the first of them, six words each, into the work memory; `next_batch` writes the next. When none is left to store the
// work memory is cleared, all of it. So a report may have more lines than the work memory has places for: each batch takes one pass over the
// project. Refused input changes nothing. A batch holds the answer and plain numbers, so that whoever stores the lines has nothing to
// compute.
#![tactic(auto)]

ghost use Rattle.std.specs.Prelude.{◌≡◌, ◌+◌, ◌^◌, ◌<◌, ◌≤◌};
ghost use Rattle.scope.specs.Model.{Model};
ghost use Rattle.tables.specs.Entered.{AliasesBelow};
ghost use Rattle.staging.specs.Batches.{Batched, Going};
ghost use Rattle.staging.specs.Steps.{no_lines, fitting, overfull, counted, Begun};

use input::check_input;
use lines::Lines;
use loops::GRAPH;
use lustre::{Answer, Records};
use project::{report, report_blank};

// What stands in the work memory: the answer of the call, the number of names, how many lines are to be stored in all, the number of the
// first line that stands there, and how many do.
#[derive(Drop)]
pub struct Batch {
    pub answer: Answer,
    pub names: u64,
    pub goal: usize,
    pub at: usize,
    pub count: usize,
}

// The batch of an answer without lines: none is due.
fn no_lines(answer: Answer) -> Batch
    ensures { result ≡ no_lines answer }
{
    Batch {
        answer,
        names: 0,
        goal: 0,
        at: 0,
        count: 0,
    }
}

// The answer to n lines where so many have room, and no line yet.
fn sum(n: u64, looks: u64, names: u64, room: usize) -> Batch
    ensures { (n ≤ room → result ≡ fitting n looks names) × (room < n → result ≡ overfull n names room) }
{
    if n <= room as u64 {
        return Batch {
            names,
            goal: n as usize,
            ..no_lines(Answer::Report(n, looks))
        };
    }
    Batch {
        names,
        goal: room,
        ..no_lines(Answer::MoreLines(n))
    }
}

// As many lines as are due and have places in `len` words.
fn count(b: Batch, len: usize) -> Batch
    requires { b.at ≤ b.goal }
    ensures { result ≡ counted b len }
{
    let left = b.goal - b.at;
    Batch {
        count: left.min(len / 6),
        ..b
    }
}

// The first batch of accepted input. The work memory holds its lines, so the graph of the pass is a local.
fn begin(records: &Records, names: u64, work: &mut [u64], room: usize) -> Batch
    requires model { (g : Model records.now.kinds.now records.now.words.now) × (g.names ≡ names) }
    requires aliases { AliasesBelow records.now.kinds.now records.now.words.now names }
    ensures { (g : Model records.now.kinds.now records.now.words.now) → g.names ≡ names → Begun g room work.old result work.new }
{
    let mut graph = [0; GRAPH];
    let mut lines = Lines {
        out: work,
        first: 0,
        count: 0,
    };
    let looks = report(records, names, &mut graph, &mut lines);
    let b = sum(lines.count, looks, names, room);
    if b.goal == 0 {
        work.fill(0);
        return b;
    }
    count(b, work.len())
}

// The first batch: a refusal of what is lent, the report without lines on a blank file, or the first lines of the report.
// Kept: kinds and words are two parameters, since C lends them so.
pub fn first_batch(kinds: &[u8], words: &[u64], text: &[u8], work: &mut [u64], room: usize) -> Batch
    requires { room < 2 ^ 63 }
    ensures { Batched kinds.now words.now text.now work.old room result work.new × (result.at ≡ 0) }
{
    match check_input(kinds, words, text, work.len()) {
        Ok(Some(names)) => begin(&Records { kinds, words }, names, work, room),
        Ok(None) => no_lines(report_blank(work)),
        Err(r) => no_lines(Answer::Refused(r)),
    }
}

// The batch after one whose lines are stored, while lines are due.
pub fn next_batch(records: &Records, work: &mut [u64], b: Batch) -> Batch
    requires { Going records.now.kinds.now records.now.words.now work.old b }
    ensures { (g : Going records.now.kinds.now records.now.words.now work.old b)
        → Batched records.now.kinds.now records.now.words.now g.text g.lent g.room result work.new
        × (result.at ≡ b.at + b.count) }
{
    let at = b.at + b.count;
    let c = Batch { at, count: 0, ..b };
    if at == c.goal {
        work.fill(0);
        return c;
    }
    let mut graph = [0; GRAPH];
    let mut lines = Lines {
        out: work,
        first: at as u64,
        count: 0,
    };
    report(records, c.names, &mut graph, &mut lines);
    count(c, work.len())
}
