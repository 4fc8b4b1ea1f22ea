// The steps that make the scope's six tables, and the lines on names that a set or a table has already. specs/ says what the tables hold of
// a project, and what a set of names holds.
#![tactic(auto)]

ghost use Rattle.std.specs.Prelude.{ℕ, ◌+◌, ◌<◌, ◌≤◌, ◌≡◌, [], ◌∷◌, eqb, get_or, set as with, if◌then◌else◌};
ghost use Rattle.lustre.specs.Name.{Name};
ghost use Rattle.lustre.specs.Line.{about};
ghost use Rattle.lines.specs.Lines.{Noted};
ghost use Rattle.loops.specs.Rows.{has, Connected};

use lines::{Lines, Spot};
use loops::NameSet;
use lustre::{NONE, NameId};
use types::context::Scope;

// Adds a name to a set, with a line where the set has it already.
pub fn repeated_name(set: &mut NameSet, name: NameId, code: u64, q: Spot, lines: &mut Lines)
    ensures noted { (num : Name → ℕ) (x : Name) → num x ≡ name.number → Noted num q (if has set.old.bits 0 name.number then about code x ∷ [] else []) lines.old lines.new }
    ensures added { Connected set.old.bits 0 name.number set.new.bits }
{
    if !set.insert(name) {
        lines.put(q, code, NONE, name.number);
    }
}

// Makes a record the declaration in force of a name, in the table that begins at `table`, with a line where the name has one already.
pub fn redeclare(
    scope: &mut Scope,
    table: usize,
    name: NameId,
    at: usize,
    code: u64,
    q: Spot,
    lines: &mut Lines,
)
    requires { (table ≤ 2560) × (at < 4096) }
    ensures noted { (num : Name → ℕ) (x : Name) → num x ≡ name.number → Noted num q (if eqb (get_or scope.old.entries (name.number + table) 0) 0 then [] else about code x ∷ []) lines.old lines.new }
    ensures entered { scope.new.entries ≡ with scope.old.entries (name.number + table) (at + 1) }
{
    if scope.declared(table, name).is_some() {
        lines.put(q, code, NONE, name.number);
    }
    scope.declare(table, name, at);
}
