// The file that program `check` reads and the text that it prints, as bytes: document 01, 'Program `check` reads standard input'.
// `decode` stores a file's words and answers its sizes, `kinds_in` and `text_in` give its other two parts, which stand in the file as
// they are; `output` holds the functions for the printed lines. Any bytes are taken.
#![tactic(auto)]

pub mod output;

ghost use Rattle.std.specs.Prelude.{◌+◌, ◌*◌, ◌≤◌, ◌<◌, ◌≡◌, ◌++◌, length, take, drop};
ghost use Rattle.format.specs.File.{words_in, parse, kinds_of, text_of, sizes_of, Decoded};

use lustre::{MAX_RECORDS, MAX_TEXT};

// The longest file that is not refusal 1: 8 bytes, 9 for each record, and the text.
pub const FILE: usize = 8 + 9 * MAX_RECORDS + MAX_TEXT;

// The record count and the text length of a file.
#[derive(Clone, Copy)]
pub struct Sizes {
    pub records: usize,
    pub text: usize,
}

// The sizes of a file, zero if it has no bytes; none if it is wrong.
#[tactic(auto, using(crate::proofs::Files::sizes))]
fn sizes_in(file: &[u8]) -> Option<Sizes>
    ensures { result ≡ sizes_of (parse file.now) }
{
    if file.is_empty() {
        return Some(Sizes {
            records: 0,
            text: 0,
        });
    }
    let (n, rest) = file.split_first_chunk::<4>()?;
    let (t, rest) = rest.split_first_chunk::<4>()?;
    let records = u32::from_le_bytes(*n) as usize;
    let text = u32::from_le_bytes(*t) as usize;
    if records > MAX_RECORDS || text > MAX_TEXT || rest.len() != 9 * records + text {
        return None;
    }
    Some(Sizes { records, text })
}

// The bytes of a file from a place on; none where it ends before.
fn behind(file: &[u8], at: usize) -> &[u8]
    ensures { result.now ≡ drop at file.now }
{
    &file[at.min(file.len())..]
}

// Stores the words that stand at the start of some bytes.
// Kept: the words are counted, since the library doesn't say what a `zip` over `iter_mut` leaves in the slice.
fn store_words(bytes: &[u8], words: &mut [u64])
    requires { 8 * length words.old ≤ length bytes.now }
    ensures { words.new ≡ words_in (length words.old) bytes.now }
{
    let (eights, _) = bytes.as_chunks::<8>();
    for (i, word) in words.iter_mut().enumerate() {
        *word = u64::from_le_bytes(eights[i]);
    }
}

// Stores a file's words and answers its sizes. A wrong file changes nothing; one with more words than are lent counts as wrong.
#[tactic(auto, using(crate::proofs::Files::finds))]
pub fn decode(file: &[u8], words: &mut [u64]) -> Option<Sizes>
    ensures { Decoded file.now words.old result words.new }
{
    let sizes = sizes_in(file)?;
    let n = sizes.records;
    if n > words.len() {
        return None;
    }
    store_words(behind(file, 8 + n), &mut words[..n]);
    Some(sizes)
}

// The part of a file that is its kinds; empty for a wrong file.
#[tactic(auto, using(crate::proofs::Files::its_parts))]
pub fn kinds_in(file: &[u8]) -> &[u8]
    ensures { result.now ≡ kinds_of (parse file.now) }
{
    match sizes_in(file) {
        Some(sizes) => &behind(file, 8)[..sizes.records],
        None => &[],
    }
}

// The part of a file that is its text; empty for a wrong file.
#[tactic(auto, using(crate::proofs::Files::its_parts))]
pub fn text_in(file: &[u8]) -> &[u8]
    ensures { result.now ≡ text_of (parse file.now) }
{
    match sizes_in(file) {
        Some(sizes) => &behind(file, 8 + 9 * sizes.records)[..sizes.text],
        None => &[],
    }
}
