// The call that reports on a whole project, in document 01's form: kinds, words and text are lent, work memory, and a slice of lines, each
// a record of six fields. All computing is done by `staging` on plain slices, a batch of lines at a time; here each batch is stored as
// structs by `stored`. The records are handed on by a `Reader`. Every refusal but 7 changes nothing; after a report or 7 the lines that
// fit are stored, and all work memory is zero.
#![tactic(auto)]

ghost use Rattle.checker.specs.Call.{Checked};

use lustre::{Answer, Line, Records};
use reader::Reader;
use staging::{first_batch, next_batch};
use stored::fill;

// The report on the records that a reader holds: batch after batch is stored, until none is left.
// Kept: each batch is made from the one before it and says itself whether one follows, so there is nothing for a `for` to go over; and an
// iterator would hold the work memory, which `fill` reads.
pub fn check_reader<'a>(r: Reader<'a>, text: &[u8], work: &mut [u64], lines: &mut [Line]) -> Answer
    ensures { Checked r.entry.kinds.now r.entry.words.now text.now work.old lines.old result work.new lines.new }
{
    let records = Records {
        kinds: r.kinds,
        words: r.words,
    };
    let mut b = first_batch(r.kinds, r.words, text, work, lines.len());
    while b.at < b.goal {
        fill(&mut lines[b.at..b.at + b.count], work);
        b = next_batch(&records, work, b);
    }
    b.answer
}

// `check_project`, lib.rs 134: the report on a whole project, or one of eight refusals.
// Kept: kinds and words are two parameters, since this is the call that C makes; a reader is made of them at once.
pub fn check_project(
    kinds: &[u8],
    words: &[u64],
    text: &[u8],
    work: &mut [u64],
    lines: &mut [Line],
) -> Answer
    ensures { Checked kinds.now words.now text.now work.old lines.old result work.new lines.new }
{
    check_reader(Reader::new(kinds, words), text, work, lines)
}
