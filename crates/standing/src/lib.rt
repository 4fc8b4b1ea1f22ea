// How the parts of a project stand in its records, by position: definitions in specs/ and their laws in proofs/, for the crates that walk
// the records; and the walk that passes one expression, whatever it is. Each record pays for one part and owes those that follow it, so
// that a walk needs no stack: it ends where nothing is owed.
#![tactic(auto)]

ghost use Rattle.std.specs.Prelude.{◌+◌, ◌<◌, ◌≡◌};
ghost use Rattle.lustre.specs.Expr.{size};
ghost use Rattle.standing.specs.Owed.{owes as owes_of, There};

use lustre::{Records, kinds};

// The number of parts that follow a record of a type or an expression; a call, a struct and an iterator owe their list, and a cast its
// type beside its operand.
#[tactic(auto, unfolding(crate::specs::Owed::owed, crate::specs::Owed::owes))]
pub fn owes(kind: u8, word: u64) -> u64
    requires { kind < 85 }
    ensures { result ≡ owes_of kind word }
{
    match kind {
        kinds::LIST | kinds::TUPLE | kinds::ARRAY => word,
        kinds::IF => 3,
        kinds::AND..=kinds::SHIFT_RIGHT => 2,
        kinds::ARROW | kinds::INDEX | kinds::CAST | kinds::MERGE => 2,
        kinds::MAP_FROM | kinds::FOLD_FROM => 2,
        kinds::ARRAY_TYPE | kinds::NOT | kinds::MINUS => 1,
        kinds::PRE | kinds::CALL | kinds::FIELD | kinds::STRUCT => 1,
        kinds::WHEN_TRUE | kinds::WHEN_FALSE | kinds::MAP | kinds::FOLD => 1,
        kinds::FIELD_VALUE => 1,
        _ => 0,
    }
}

// The record behind the expression at a place.
pub fn skip(records: &Records, at: usize) -> usize
    requires { There records.now.kinds.now records.now.words.now at }
    ensures { (g : There records.now.kinds.now records.now.words.now at) → result ≡ at + size g.e }
{
    let mut next = at;
    let mut left: u64 = 1;
    // Kept: the answer is where the walk ends; an iterator would hold the same two numbers and be run to its end.
    while left > 0 {
        left = left - 1 + owes(records.kinds[next], records.words[next]);
        next += 1;
    }
    next
}
