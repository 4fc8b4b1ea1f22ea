// The records: known kinds (refusal 4) with words in range (refusal 8), one project (refusal 5) of bounded levels (refusal 6), and the end
// of the part that starts at a record. Document 01, 'Records, in order of writing', and request 2.2. Any kinds and words are taken; where
// one slice is longer, its rest is not read.
// Words in range are judged one by one, by a `Reader`; `first_bad` is that on plain slices.
#![tactic(auto)]

mod tables;

ghost use Rattle.std.specs.Prelude.{◌≡◌, ℕ, ◌+◌, ◌<◌, ◌≤◌, [], ◌∷◌, map, replicate, length};
ghost use Rattle.lustre.specs.Levels.{inner_of, too_deep};
ghost use Rattle.lustre.specs.Records.{word_class, is_known, in_class, bad_record};
ghost use Rattle.records.specs.Ranges.{judged, bad_from};
ghost use Rattle.records.specs.Places.{class_of, wanted, mark, wants, walk_to, Passed};
ghost use Rattle.records.specs.Stands.{PartAt, EndOf};
ghost use Rattle.records.specs.Tables.{placed, Structured};

use lustre::{MAX_RECORDS, Records, Refusal};
use reader::Reader;
pub use tables::{Class, Sort};
use tables::{Shape, WordClass};

// The most levels of a type and of an expression.
const TYPE_LEVELS: usize = 68;

const EXPRESSION_LEVELS: usize = 60;

// What is wanted at a record: a class of parts at a level.
#[derive(Clone, Copy)]
struct Want {
    class: Class,
    level: usize,
}

// Where reading has come: the next record, and the first record too deep, if there is one.
#[derive(Clone, Copy)]
struct Reached {
    next: usize,
    deep: Option<usize>,
}

// The records whose structure is read, as many kinds as words.
#[derive(Clone, Copy)]
struct Structure<'a> {
    kinds: &'a [u8],
    words: &'a [u64],
    ghost same: { length kinds.now ≡ length words.now },
}

impl Want {
    // A part of a class behind a record that is wanted: lists and field values add no level, a cast's type starts anew.
    #[tactic(auto, unfolding(lustre::specs::Levels::inner_of, lustre::specs::Levels::inner))]
    fn inner(self, part: Class) -> Want
        requires { self.level < usize.MAX }
        ensures wanted { inner_of (class_of self.class) self.level (class_of part) ≡ wanted result }
        ensures deeper { result.level ≤ self.level + 1 }
    {
        let level = match (self.class, part) {
            (Class::List(_) | Class::One(Sort::FieldValue), _) => self.level,
            (Class::One(Sort::Expression), Class::One(Sort::Type) | Class::List(Sort::Type)) => 1,
            (Class::One(Sort::Expression | Sort::Type), _) => self.level + 1,
            _ => 1,
        };
        Want { class: part, level }
    }

    // Whether a record of the class is too deep at the level.
    #[tactic(auto, unfolding(lustre::specs::Levels::too_deep))]
    fn is_too_deep(self) -> bool
        ensures { result ≡ too_deep (class_of self.class) self.level }
    {
        match self.class {
            Class::One(Sort::Type) => self.level > TYPE_LEVELS,
            Class::One(Sort::Expression) => self.level > EXPRESSION_LEVELS,
            _ => false,
        }
    }
}

impl Reached {
    // Past the next record, which is of the class and at the level that are wanted.
    #[tactic(auto, unfolding(crate::specs::Places::mark))]
    fn past(self, want: Want) -> Reached
        requires { self.next < usize.MAX }
        ensures next { result.next ≡ self.next + 1 }
        ensures deep { result.deep ≡ mark (wanted want) self.next self.deep }
    {
        let deep = match self.deep {
            None if want.is_too_deep() => Some(self.next),
            deep => deep,
        };
        Reached {
            next: self.next + 1,
            deep,
        }
    }
}

impl<'a> Structure<'a> {
    // Reads one part and moves past it, or gives the record that cannot stand. What is reached is lent, since copies of it would take more of
    // the stack at each level.
    #[cycle(part)]
    fn part(&self, want: Want, reached: &mut Reached) -> Result<(), usize>
        requires inside { reached.old.next ≤ length self.now.kinds.now }
        requires level { want.level ≤ reached.old.next + 1 }
        ensures { Passed self.now.kinds.now self.now.words.now (wanted want ∷ []) reached.old.next reached.old.deep (reached.old.next + 1)
            (walk_to reached.new result) }
    {
        let at = reached.next;
        if at >= self.kinds.len() {
            return Err(at);
        }
        match tables::shape_of(want.class, self.kinds[at]) {
            None => Err(at),
            Some(Shape::Each(class)) => {
                *reached = reached.past(want);
                self.items(want.inner(class), self.words[at], reached)
            }
            Some(Shape::Parts(classes)) => {
                *reached = reached.past(want);
                self.operands(want, classes, reached)
            }
        }
    }

    // Reads so many parts that are wanted, and moves past them.
    #[cycle(part)]
    fn items(&self, want: Want, count: u64, reached: &mut Reached) -> Result<(), usize>
        requires inside { reached.old.next ≤ length self.now.kinds.now }
        requires level { want.level ≤ reached.old.next + 1 }
        ensures { Passed self.now.kinds.now self.now.words.now (replicate count (wanted want)) reached.old.next reached.old.deep
            reached.old.next (walk_to reached.new result) }
    {
        for _ in 0..count {
            self.part(want, reached)?;
        }
        Ok(())
    }

    // Reads a part of each class, behind a record that is wanted, and moves past them.
    #[cycle(part)]
    fn operands(&self, want: Want, classes: &[Class], reached: &mut Reached) -> Result<(), usize>
        requires inside { reached.old.next ≤ length self.now.kinds.now }
        requires level { want.level ≤ reached.old.next }
        ensures { Passed self.now.kinds.now self.now.words.now (wants (wanted want) (map class_of classes.now)) reached.old.next
            reached.old.deep reached.old.next (walk_to reached.new result) }
    {
        for class in classes {
            self.part(want.inner(*class), reached)?;
        }
        Ok(())
    }
}

// Refusals 5 and 6 in one pass: the records form one project, or the first that cannot stand or is left over (the record count if they
// end early), or the first too deep.
// Kept: kinds and words are two parameters, since C lends them so and one may be longer than the other.
pub fn check_structure(kinds: &[u8], words: &[u64]) -> Result<(), Refusal>
    ensures { Structured kinds.now words.now result }
{
    let n = kinds.len().min(words.len());
    let structure = Structure {
        kinds: &kinds[..n],
        words: &words[..n],
    };
    let project = Want {
        class: Class::One(Sort::Project),
        level: 1,
    };
    let mut reached = Reached {
        next: 0,
        deep: None,
    };
    match structure.part(project, &mut reached) {
        Err(at) => Err(Refusal::NoProject(at as u64)),
        Ok(()) if reached.next < n => Err(Refusal::NoProject(reached.next as u64)),
        Ok(()) => match reached.deep {
            Some(at) => Err(Refusal::TooDeep(at as u64)),
            None => Ok(()),
        },
    }
}

// The end of the part of a class that stands at a position.
pub fn part_end(records: &Records, class: Class, at: usize) -> usize
    requires { PartAt records.now.kinds.now records.now.words.now (class_of class) at }
    ensures { EndOf records.now.kinds.now records.now.words.now (class_of class) at result }
{
    let structure = Structure {
        kinds: records.kinds,
        words: records.words,
    };
    let mut end = Reached {
        next: at,
        deep: None,
    };
    let want = Want { class, level: 1 };
    structure.part(want, &mut end).unwrap();
    end.next
}

// Whether a kind is known.
#[tactic(auto, unfolding(lustre::specs::Records::is_known))]
pub fn is_known(kind: u8) -> bool
    ensures { result ≡ is_known (word_class kind) }
{
    tables::word_class(kind).is_some()
}

// Whether a word is in the range of its kind, where there are so many names.
#[tactic(auto, unfolding(lustre::specs::Records::in_class))]
fn in_range(names: u64, kind: u8, word: u64) -> bool
    ensures { result ≡ in_class names (word_class kind) word }
{
    match tables::word_class(kind) {
        None => false,
        Some(WordClass::Nothing) => word == 0,
        Some(WordClass::Name) => word < names,
        Some(WordClass::Count) => word <= MAX_RECORDS as u64,
        Some(WordClass::Length) => word <= u64::from(u32::MAX),
        Some(WordClass::Truth) => word < 2,
        Some(WordClass::Anything) => true,
        Some(WordClass::Byte) => word <= u64::from(u8::MAX),
    }
}

// Whether the word that the reader stands at is in the range of its kind.
fn judge(r: Reader, names: u64) -> bool
    ensures { result ≡ judged names r.entry }
{
    in_range(names, r.kind(), r.word())
}

// The first record out of range, from where the reader stands on.
// Kept: document 01 asks for a reader that walks the records; a chain over `zip` would go past it.
pub fn first_bad_from(r: Reader, names: u64) -> Option<usize>
    ensures { result ≡ placed (bad_from names r.entry) }
{
    let mut s = r;
    while s.at < s.count() {
        if !judge(s, names) {
            return Some(s.at);
        }
        s = s.next();
    }
    None
}

// Refusals 4 and 8: the first record whose kind is unknown or whose word is out of range. It makes a reader, and walks by it.
// Kept: kinds and words are two parameters, since C lends them so and one may be longer than the other.
pub fn first_bad(kinds: &[u8], words: &[u64], names: u64) -> Option<usize>
    ensures { result ≡ placed (bad_record names 0 kinds.now words.now) }
{
    first_bad_from(Reader::new(kinds, words), names)
}
