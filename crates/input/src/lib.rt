// The refusals of what is lent together: document 01, 'What is lent', and requests 2.1 and 2.2. The first that applies, in the order 1, 2, 3,
// 4 or 8, 5, 6, with its place; or that the file is blank; or the number of names. Nothing lent is changed: every slice is read only. What
// acceptance gives stands in specs/Accepted.antt.
#![tactic(auto)]

ghost use Rattle.std.specs.Prelude.{◌≡◌};
ghost use Rattle.lustre.specs.Answer.{is_blank, record_refusal};
ghost use Rattle.input.specs.Input.{judged, JudgedRecords};

use lustre::{MAX_RECORDS, MAX_TEXT, MIN_WORK, Refusal};

// Whether there are no records and no text.
#[tactic(auto, unfolding(lustre::specs::Answer::is_blank))]
fn is_blank(kinds: &[u8], text: &[u8]) -> bool
    ensures { result ≡ is_blank kinds.now text.now }
{
    kinds.is_empty() && text.is_empty()
}

// The first refusal that applies; else the number of names, or none where the file is blank. `work` is the length of the work memory.
// Kept: kinds and words are two parameters, since C lends them so, and here it is first told that they are equally long.
#[tactic(auto, unfolding(crate::specs::Input::judged, lustre::specs::Answer::lowest, lustre::specs::Answer::refuse, lustre::specs::Answer::unless_refused, lustre::specs::Answer::bad_sizes, lustre::specs::Answer::short_work))]
pub fn check_input(
    kinds: &[u8],
    words: &[u64],
    text: &[u8],
    work: usize,
) -> Result<Option<u64>, Refusal>
    ensures { result ≡ judged kinds.now words.now text.now work }
{
    if kinds.len() != words.len() || kinds.len() > MAX_RECORDS || text.len() > MAX_TEXT {
        return Err(Refusal::Sizes);
    }
    if work < MIN_WORK {
        return Err(Refusal::ShortWork(work as u64));
    }
    if is_blank(kinds, text) {
        return Ok(None);
    }
    let names = names::check_names(text)?;
    check_records(kinds, words, names)?;
    Ok(Some(names))
}

// The refusal of the first bad record: 4 if its kind is unknown, else 8.
#[tactic(auto, using(crate::proofs::Judges::no_kind), unfolding(lustre::specs::Answer::record_refusal))]
fn record_refusal(kinds: &[u8], at: usize) -> Refusal
    ensures { result ≡ record_refusal kinds.now at }
{
    match kinds.get(at) {
        Some(kind) if records::is_known(*kind) => Refusal::BadWord(at as u64),
        _ => Refusal::BadKind(at as u64),
    }
}

// Refusals 4 or 8, 5 and 6, where there are so many names.
fn check_records(kinds: &[u8], words: &[u64], names: u64) -> Result<(), Refusal>
    ensures { JudgedRecords kinds.now words.now names result }
{
    if let Some(at) = records::first_bad(kinds, words, names) {
        return Err(record_refusal(kinds, at));
    }
    records::check_structure(kinds, words)
}
