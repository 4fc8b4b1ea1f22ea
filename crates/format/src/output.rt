// The printed lines as bytes: document 01, the worked example. `render_answer` writes the header of an answer into a lent buffer, and
// `render_line` one line of the report, whose name is read from the lent text. Both answer the number of bytes; where they do not fit,
// there is none and the buffer is as it was.
//
// Kept: no `impl Display`. `write!` takes text, and the bytes of a lent name may be none; and its contract leaves open that it fails where
// there is room, while these two functions promise the bytes of every answer and line.
ghost use Rattle.std.specs.Prelude.{◌≤◌, ◌≡◌, ◌++◌, length};
ghost use Rattle.lustre.specs.Names.{names_of};
ghost use Rattle.format.specs.Output.{bytes, decimal, field, front, name, header};
ghost use Rattle.format.specs.Output.{code as Output·code, place as Output·place, line as Output·line};
ghost use Rattle.format.specs.Buffers.{Rendered};

use arrayvec::ArrayString;
use itoa::Buffer;
use lustre::codes::W0051;
use lustre::{Answer, Line, Numbers};

// Room for the longest header, which has 57 bytes with its newline, and for the longest line up to its name, 106.
const FRONT: usize = 128;

// A number.
#[tactic(auto, using(crate::proofs::Pieces::decimal_is))]
fn decimal_of(n: u64) -> ArrayString<20>
    ensures { result.bytes ≡ decimal n }
{
    let mut text = ArrayString::new();
    text.push_str(Buffer::new().format(n));
    text
}

// A code, its number with four digits at least, and a space.
#[tactic(auto, using(crate::proofs::Pieces::coding), unfolding(crate::specs::Output::code, crate::specs::Output::letter, lustre::specs::Line::severity))]
fn code_of(code: u64) -> ArrayString<22>
    ensures { result.bytes ≡ Output·code code ++ bytes " " }
{
    let digits = decimal_of(code);
    let mut text = ArrayString::new();
    text.push_str(if code == W0051 { "W" } else { "E" });
    text.push_str(&"0000"[digits.len().min(4)..]);
    text.push_str(digits.as_str());
    text.push_str(" ");
    text
}

// A number, or - for none, and a space.
#[tactic(auto, unfolding(crate::specs::Output::field))]
fn field_of(n: u64) -> ArrayString<21>
    ensures { result.bytes ≡ field n ++ bytes " " }
{
    let mut text = ArrayString::new();
    if n == lustre::NONE {
        text.push_str("- ");
    } else {
        text.push_str(decimal_of(n).as_str());
        text.push_str(" ");
    }
    text
}

// A place kind and a space.
// Kept: a place kind stays a number, since a line's fields are C's numbers and an enum would be made of it for this match alone.
#[tactic(auto, unfolding(crate::specs::Output::place))]
fn place_of(place: u64) -> ArrayString<21>
    ensures { result.bytes ≡ Output·place place ++ bytes " " }
{
    let mut text = ArrayString::new();
    text.push_str(match place {
        lustre::AT_PACKAGE => "package ",
        lustre::AT_ENUM => "enum ",
        lustre::AT_TYPE => "type ",
        lustre::AT_CONSTANT => "constant ",
        lustre::AT_NODE => "node ",
        _ => return field_of(place),
    });
    text
}

// A line up to its name.
#[tactic(auto, unfolding(crate::specs::Output::front))]
fn front_of(l: Line) -> ArrayString<FRONT>
    ensures { result.bytes ≡ front l }
{
    let mut text = ArrayString::new();
    text.push_str(code_of(l.code).as_str());
    text.push_str(place_of(l.place).as_str());
    text.push_str(field_of(l.number).as_str());
    text.push_str(field_of(l.equation).as_str());
    text.push_str(field_of(l.step).as_str());
    text
}

// Copies two parts and a newline byte to the start of a buffer, if they fit, and answers their number.
#[tactic(auto, using(crate::proofs::Pieces::laying))]
fn copy_line(out: &mut [u8], front: &[u8], back: &[u8]) -> Option<usize>
    ensures { Rendered (front.now ++ back.now ++ bytes "\n") out.old result out.new }
{
    let middle = front.len();
    let end = middle + back.len();
    if end >= out.len() {
        return None;
    }
    out[..middle].copy_from_slice(front);
    out[middle..end].copy_from_slice(back);
    out[end] = b'\n';
    Some(end + 1)
}

// Two numbers behind a text each.
fn pair(before: &str, first: u64, between: &str, second: u64) -> ArrayString<FRONT>
    requires { (length before.now ≤ 20) × (length between.now ≤ 20) }
    ensures { result.bytes ≡ before.now ++ decimal first ++ between.now ++ decimal second }
{
    let mut text = ArrayString::new();
    text.push_str(before);
    text.push_str(decimal_of(first).as_str());
    text.push_str(between);
    text.push_str(decimal_of(second).as_str());
    text
}

// The header of an answer, without its newline byte.
#[tactic(auto, unfolding(crate::specs::Output::header))]
fn header_of(a: Answer) -> ArrayString<FRONT>
    ensures { result.bytes ++ bytes "\n" ≡ header a }
{
    match a {
        Answer::Report(lines, followed) => pair("lines ", lines, " followed ", followed),
        Answer::Refused(_) | Answer::MoreLines(_) => {
            let n = Numbers::from(a);
            pair("refused ", n.refusal, " at ", n.first)
        }
    }
}

// Renders the header of an answer.
pub fn render_answer(out: &mut [u8], a: Answer) -> Option<usize>
    ensures { Rendered (header a) out.old result out.new }
{
    copy_line(out, header_of(a).as_str().as_bytes(), b"")
}

// The name of a line, a part of the lent text, or - for none.
#[tactic(auto, unfolding(crate::specs::Output::name))]
fn name_in(text: &[u8], n: u64) -> &[u8]
    ensures { result.now ≡ name (names_of text.now) n }
{
    if n == lustre::NONE {
        b"-"
    } else {
        names::name(text, n as usize)
    }
}

// Renders a line of the report, whose name is a part of the lent text.
#[tactic(auto, unfolding(crate::specs::Output::line))]
pub fn render_line(out: &mut [u8], text: &[u8], l: Line) -> Option<usize>
    ensures { Rendered (Output·line (names_of text.now) l) out.old result out.new }
{
    copy_line(out, front_of(l).as_str().as_bytes(), name_in(text, l.name))
}
