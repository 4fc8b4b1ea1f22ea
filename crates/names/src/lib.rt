// The lent text as names: document 01, 'What is lent', refusal 3. A name is 1 to 64 non-zero bytes closed by a zero byte, above the
// name before it in byte order, and neither `__tuple__` nor `__unit__`; there are at most 512. `check_names` gives refusal 3's place
// or the number of names, `name` the part of the text that is a name, `is_above` compares two names. Any bytes are taken.
#![tactic(auto)]

ghost use Rattle.std.specs.Prelude.{◌≡◌, true};
ghost use Rattle.std.proofs.Math.Option.{some};
ghost use Rattle.lustre.specs.Name.{◌among◌};
ghost use Rattle.lustre.specs.Names.{above, barred, is_name, names_of, name_at};
ghost use Rattle.names.specs.Scan.{piece_of, checked, zeros};

use lustre::{NAMES, Refusal};

// A name has at most so many bytes.
const MAX_LENGTH: usize = 64;

// The names that are barred: the Rust's names of two types of inference.
const BARRED: [&[u8]; 2] = [b"__tuple__", b"__unit__"];

// So many bytes at a time are passed over in the search for a name: zeros are counted faster than names are cut.
const STRETCH: usize = 16;

// Whether b is above a in byte order.
#[tactic(auto, using(crate::proofs::Orders::above_by_lt))]
pub fn is_above(a: &[u8], b: &[u8]) -> bool
    ensures { result ≡ above (some a.now) b.now }
{
    a < b
}

// Whether a name is barred.
#[tactic(auto, using(crate::proofs::Orders::barred_by_contains))]
fn is_barred(a: &[u8]) -> bool
    ensures { result ≡ a.now among barred }
{
    BARRED.contains(&a)
}

// Whether a closed piece is a name, as number n behind the name before it. The first has the empty text before it, which every name is above.
#[tactic(auto, unfolding(lustre::specs::Names::is_name))]
fn is_name(n: u64, before: &[u8], piece: &[u8]) -> bool
    ensures { result ≡ is_name n (some before.now) (piece_of piece.now true) }
{
    !piece.is_empty()
        && piece.len() <= MAX_LENGTH
        && is_above(before, piece)
        && !is_barred(piece)
        && n < NAMES as u64
}

// The number of names in a text, or the number of its first piece that is no name.
pub fn check_names(text: &[u8]) -> Result<u64, Refusal>
    ensures { result ≡ checked text.now }
{
    // Kept: n is the answer too, and `enumerate` would lose the last count.
    let mut n = 0;
    let mut before: &[u8] = b"";
    for piece in text.split_inclusive(|b| *b == 0) {
        match piece.strip_suffix(b"\0") {
            Some(name) if is_name(n, before, name) => before = name,
            _ => return Err(Refusal::BadName(n)),
        }
        n += 1;
    }
    Ok(n)
}

// How many of the bytes are zero.
fn zeros_in(bytes: &[u8]) -> usize
    ensures { result ≡ zeros bytes.now }
{
    // Kept: the compiler counts many bytes at once in a plain loop, and not behind `filter`.
    let mut n = 0;
    for b in bytes {
        if *b == 0 {
            n += 1;
        }
    }
    n
}

// A rest of the text, and the number that name n has there. The stretches before the one in which name n - 1 ends are passed over.
fn passed_over(text: &[u8], n: usize) -> (&[u8], usize)
    ensures { name_at (names_of result.0.now) result.1 ≡ name_at (names_of text.now) n }
{
    let mut rest = text;
    let mut left = n;
    while let Some((front, back)) = rest.split_at_checked(STRETCH) {
        let closed = zeros_in(front);
        if closed >= left {
            return (rest, left);
        }
        rest = back;
        left -= closed;
    }
    (rest, left)
}

// The part of the text that is name n, without its closing zero; empty past the last name. A last name that is not closed counts here.
pub fn name(text: &[u8], n: usize) -> &[u8]
    ensures { result.now ≡ name_at (names_of text.now) n }
{
    let (rest, n) = passed_over(text, n);
    rest.split(|b| *b == 0).nth(n).unwrap_or(b"")
}
