// What is checked of an equation's right-hand side beside its type, each in one pass over its records: whether it has a temporal operator,
// E0070, E0146, and the names that it reads in the same instant. The records are a part that starts at the right-hand side, so that a
// position is a step. A pass counts the parts still owed, as `standing::skip` does. That for E0070 calls itself where a part of a `pre` or
// an arrow is judged otherwise than its surroundings: so it nests no deeper than the expression's 60 levels.
#![tactic(auto)]

ghost use Rattle.std.specs.Prelude.{ℕ, ◌<◌, ◌≡◌, true, [], ◌∷◌, if◌then◌else◌};
ghost use Rattle.lustre.specs.Name.{Name};
ghost use Rattle.lustre.specs.Expr.{contains_temporal};
ghost use Rattle.lustre.specs.Placement.{nested};
ghost use Rattle.lines.specs.Lines.{Noted};
ghost use Rattle.standing.specs.Owed.{There};
ghost use Rattle.body.specs.Body.{Side, notes, temporal_kind, iterator_kind, reading_kind, Initialized, WithNames, Collected};

use lines::{Lines, Spot};
use loops::NameSet;
use lustre::{NONE, NameId, Records, codes, kinds};
use standing::{owes, skip};

// Whether a record is a temporal operator.
fn is_temporal(kind: u8) -> bool
    ensures { result ≡ temporal_kind kind }
{
    matches!(kind, kinds::PRE | kinds::ARROW)
}

// Whether a right-hand side of these kinds has a temporal operator: `Expr::contains_temporal`, expr.rs 431.
// Kept: what stands in the records is asked, here and below, and is no ghost fact: it is data, and a ghost fact has one proof alone.
pub fn contains_temporal(kinds: &[u8]) -> bool
    requires { Side kinds.now }
    ensures { (g : Side kinds.now) → result ≡ contains_temporal g.whole.e }
{
    kinds.iter().any(|k| is_temporal(*k))
}

// Whether a record is an iterator: map, fold, with a seed or not.
fn is_iterator(kind: u8) -> bool
    ensures { result ≡ iterator_kind kind }
{
    matches!(kind, kinds::MAP..=kinds::FOLD_FROM)
}

// The line of an iterator that stands at a step; none for a record of another kind.
fn note_iterator(kind: u8, step: usize, q: Spot, lines: &mut Lines)
    ensures { (num : Name → ℕ) → Noted num q (notes 146 (if iterator_kind kind then step ∷ [] else [])) lines.old lines.new }
{
    if is_iterator(kind) {
        lines.put(q, codes::E0146, step as u64, NONE);
    }
}

// The lines of the iterators inside a right-hand side of these kinds: `check_iterator_placement`, lib.rs 1423. The right-hand side itself,
// at step 0, may be one.
pub fn nested_iterators(kinds: &[u8], q: Spot, lines: &mut Lines)
    requires { Side kinds.now }
    ensures { (num : Name → ℕ) (g : Side kinds.now) → Noted num q (notes 146 (nested g.whole.e)) lines.old lines.new }
{
    for (step, kind) in kinds.iter().enumerate().skip(1) {
        note_iterator(*kind, step, q, lines);
    }
}

// The line of a `pre` at a step; none in the body of an arrow, which gives it a first value.
fn note_pre(under: bool, step: usize, q: Spot, lines: &mut Lines)
    ensures { (num : Name → ℕ) → Noted num q (notes 70 (if under then [] else step ∷ [])) lines.old lines.new }
{
    if !under {
        lines.put(q, codes::E0070, step as u64, NONE);
    }
}

// The lines of each `pre` of the expression at a place that no arrow gives a first value, and the record behind the expression:
// `check_pre_initialization`, lib.rs 614. `under` says that the place is in the body of an arrow.
pub fn check_pre(side: &Records, at: usize, under: bool, q: Spot, lines: &mut Lines) -> usize
    requires { There side.now.kinds.now side.now.words.now at }
    ensures { (num : Name → ℕ) (g : There side.now.kinds.now side.now.words.now at) →
        Initialized num q g.e at under lines.old result lines.new }
{
    let mut next = at;
    let mut left: u64 = 1;
    // Kept: a `pre` and an arrow are passed in the middle of the walk, so a `for` would have its iterator changed inside.
    while left > 0 {
        match side.kinds[next] {
            kinds::PRE => {
                note_pre(under, next, q, lines);
                next = check_pre(side, next + 1, false, q, lines);
                left -= 1;
            }
            kinds::ARROW => {
                let body = check_pre(side, next + 1, under, q, lines);
                next = check_pre(side, body, true, q, lines);
                left -= 1;
            }
            kind => {
                left = left - 1 + owes(kind, side.words[next]);
                next += 1;
            }
        }
    }
    next
}

// Whether the word of a record is a name that is read: a variable's, or the clock of a `when` or a merge.
fn is_read(kind: u8) -> bool
    ensures { result ≡ reading_kind kind }
{
    matches!(kind, kinds::VARIABLE | kinds::WHEN_TRUE..=kinds::MERGE)
}

// Adds the name that a record reads, if it reads one, to the set.
fn note_read(kind: u8, word: u64, row: &mut NameSet)
    requires { reading_kind kind ≡ true → word < 512 }
    ensures { (text : ℕ → Name) → WithNames text (if reading_kind kind then text word ∷ [] else []) row.old.bits row.new.bits }
{
    if is_read(kind) {
        row.insert(NameId { number: word });
    }
}

// Adds the names that the expression at a place reads in the same instant to the set `row`, and returns the record behind it:
// `collect_immediate_deps`, lib.rs 1534, and since request 2.6 the body of an arrow too.
pub fn immediate_reads(records: &Records, at: usize, row: &mut NameSet) -> usize
    requires { There records.now.kinds.now records.now.words.now at }
    ensures { (g : There records.now.kinds.now records.now.words.now at) → Collected g.text g.e at row.old.bits result row.new.bits }
{
    let mut next = at;
    let mut left: u64 = 1;
    // Kept: a `pre` is passed in the middle of the walk, so a `for` would have its iterator changed inside.
    while left > 0 {
        let kind = records.kinds[next];
        if kind == kinds::PRE {
            next = skip(records, next + 1);
            left -= 1;
        } else {
            let word = records.words[next];
            note_read(kind, word, row);
            left = left - 1 + owes(kind, word);
            next += 1;
        }
    }
    next
}
