// What every crate of the checker shares: a line of the report, the answer of a call, and the codes.
// Document 01, 'What is lent' and 'The lines and their order'. specs/ holds the definition of the whole report, which contracts cite.
#![tactic(auto)]

pub mod codes;
pub mod kinds;

ghost use Rattle.std.specs.Prelude.{◌≡◌, ◌<◌, length, get_or};
ghost use Rattle.lustre.specs.Answer.{number_and_place, refusal_of, first_of, second_of};

// The value of a field that has none: no record, name or line has this number.
// Kept: no `Option`, since a line's fields are C's numbers.
pub const NONE: u64 = 18446744073709551615;

// The most records, the most bytes of text and the fewest words of work memory that may be lent.
pub const MAX_RECORDS: usize = 4096;

pub const MAX_TEXT: usize = 16384;

pub const MIN_WORK: usize = 4096;

// There are at most so many names.
pub const NAMES: usize = 512;

// The lines of the report that document 01's program lends.
pub const LINES: usize = 1024;

// Place kinds, in the order of document 01.
// Kept: no enum, since a line's fields are C's numbers, and a place kind is only put into a line.
pub const AT_PACKAGE: u64 = 0;

pub const AT_ENUM: u64 = 1;

pub const AT_TYPE: u64 = 2;

pub const AT_CONSTANT: u64 = 3;

pub const AT_NODE: u64 = 4;

// Records as they are lent: of each its kind and its word. A part of them begins at a later record.
#[derive(Clone, Copy)]
pub struct Records<'a> {
    pub kinds: &'a [u8],
    pub words: &'a [u64],
}

impl<'a> Records<'a> {
    // The name whose number is the word of a record.
    pub fn name(&self, at: usize) -> NameId
        requires inside { at < length self.now.words.now }
        requires small { get_or self.now.words.now at 0 < 512 }
        ensures { result.number ≡ get_or self.now.words.now at 0 }
    {
        NameId {
            number: self.words[at],
        }
    }
}

// A name by its number, which tables and sets of names go by. A line, a type and a search for a name take numbers that need be no name's.
#[derive(Clone, Copy, PartialEq, Eq)]
pub struct NameId {
    pub number: u64,
    pub ghost below: { number < 512 },
}

// A line of the report. `equation`, `step` and `name`, a name's number, may be NONE. Its layout is C's, so that `exports` can lend a slice of
// lines.
#[repr(C)]
#[derive(Clone, Copy, Default, PartialEq, Eq)]
pub struct Line {
    pub code: u64,
    pub place: u64,
    pub number: u64,
    pub equation: u64,
    pub step: u64,
    pub name: u64,
}

// The refusals of what is lent, document 01's 1 to 6 and request 2.2's 8, each with its place. Every call on a project has them.
#[derive(Clone, Copy, PartialEq, Eq)]
pub enum Refusal {
    Sizes,
    ShortWork(u64),
    BadName(u64),
    BadKind(u64),
    BadWord(u64),
    NoProject(u64),
    TooDeep(u64),
}

// What the check of a project answers: a report, with its number of lines and the number of edges followed, or one of eight refusals, with
// its place.
#[derive(Clone, Copy, PartialEq, Eq)]
pub enum Answer {
    Report(u64, u64),
    Refused(Refusal),
    MoreLines(u64),
}

// An answer as numbers: 0 or the refusal's number, then its lines and edges followed, or its place and 0.
#[derive(Clone, Copy, PartialEq, Eq)]
pub struct Numbers {
    pub refusal: u64,
    pub first: u64,
    pub second: u64,
}

// The number of a refusal of what is lent and its place, for every call that answers with one.
impl From<Refusal> for Numbers {
    fn from(r: Refusal) -> Numbers
        ensures { (result.refusal ≡ (number_and_place r).0) × (result.first ≡ (number_and_place r).1) × (result.second ≡ 0) }
    {
        let (refusal, first) = match r {
            Refusal::Sizes => (1, 0),
            Refusal::ShortWork(at) => (2, at),
            Refusal::BadName(at) => (3, at),
            Refusal::BadKind(at) => (4, at),
            Refusal::NoProject(at) => (5, at),
            Refusal::TooDeep(at) => (6, at),
            Refusal::BadWord(at) => (8, at),
        };
        Numbers {
            refusal,
            first,
            second: 0,
        }
    }
}

impl From<Answer> for Numbers {
    fn from(a: Answer) -> Numbers
        ensures { (result.refusal ≡ refusal_of a) × (result.first ≡ first_of a) × (result.second ≡ second_of a) }
    {
        match a {
            Answer::Report(lines, followed) => Numbers {
                refusal: 0,
                first: lines,
                second: followed,
            },
            Answer::Refused(r) => Numbers::from(r),
            Answer::MoreLines(at) => Numbers {
                refusal: 7,
                first: at,
                second: 0,
            },
        }
    }
}
