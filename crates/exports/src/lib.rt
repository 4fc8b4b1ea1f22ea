// The checker for C and Rust: the call on numbers and slices, under names that a build can link. A slice is a pointer and a length, a
// reference to a number is a pointer; `include/wuroike.h` says what each argument means. Nothing is asked of a caller but that the memory is
// there: every content has an answer.
#![tactic(auto)]

ghost use Rattle.exports.specs.Export.{Told, Answered, AnsweredLines};

use checker::check_project;
use lustre::{Answer, Line, Numbers};
use project::check;

// Hands an answer out as numbers: 0 for a report or the refusal's number, and by reference the other two.
// Kept: C has no enums that hold values, so an answer goes out as numbers, and kinds, words and lines are lent one by one.
fn tell(a: Answer, first: &mut u64, second: &mut u64) -> u64
    ensures { Told a result first.new second.new }
{
    let n = Numbers::from(a);
    *first = n.first;
    *second = n.second;
    n.refusal
}

// The check of a project: 0 for a report or the refusal's number. `first` is the number of lines or the place, `second` the number of edges
// followed or 0.
#[unsafe(no_mangle)]
pub extern "C" fn wuroike_check(
    kinds: &[u8],
    words: &[u64],
    text: &[u8],
    work: &mut [u64],
    lines: &mut [u64],
    first: &mut u64,
    second: &mut u64,
) -> u64
    ensures { Answered kinds.now words.now text.now work.old lines.old result first.new second.new work.new lines.new }
{
    tell(check(kinds, words, text, work, lines), first, second)
}

// The same with the lines lent as records of six fields, which are stored in batches of as many as the work memory has places for.
#[unsafe(no_mangle)]
pub extern "C" fn wuroike_check_project(
    kinds: &[u8],
    words: &[u64],
    text: &[u8],
    work: &mut [u64],
    lines: &mut [Line],
    first: &mut u64,
    second: &mut u64,
) -> u64
    ensures { AnsweredLines kinds.now words.now text.now work.old lines.old result first.new second.new work.new lines.new }
{
    tell(
        check_project(kinds, words, text, work, lines),
        first,
        second,
    )
}
