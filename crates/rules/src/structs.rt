// Struct values, lib.rs 1134: the record that is meant, and the fields that are not given.
ghost use Rattle.std.specs.Prelude.{◌≡◌, List, ℕ};
ghost use Rattle.lustre.specs.Name.{Name};
ghost use Rattle.lustre.specs.Infer.{struct_name, missing as missing_of};
ghost use Rattle.lines.specs.Lines.{Noted};
ghost use Rattle.rules.specs.World.{WorldOf, PortsOf};
ghost use Rattle.rules.specs.Marks.{Marked};
ghost use Rattle.rules.specs.Structs.{Declared};

use crate::fail;
use crate::walk::ports_of;
use lines::{Lines, Spot};
use loops::NameSet;
use lustre::{NameId, Records, codes, kinds};
use types::Typ;
use types::context::{Context, Scope};

// What a struct's field values leave: the names given, and where the next record is.
// Kept: this and the other types with a `next` are no one generic type, since the names of their fields say what is handed on.
#[derive(Clone, Copy)]
pub struct ValuesLeft {
    pub marks: NameSet,
    pub next: usize,
}

// The name that a struct value's name resolves to, or the written one, lib.rs 1135.
pub fn struct_name(ctx: &Context, name: NameId) -> NameId
    ensures { (W : WorldOf ctx.now) → W.text result.number ≡ struct_name W.Γ (W.text name.number) }
{
    let s = ctx.resolve(&Typ::named(name));
    if s.levels == 0 && s.base == kinds::NAMED {
        NameId { number: s.name }
    } else {
        name
    }
}

// The list of the fields of a record, lib.rs 1139: E0125.
pub fn record_of(
    ctx: &Context,
    name: NameId,
    at: usize,
    q: Spot,
    lines: &mut Lines,
) -> Option<usize>
    ensures { (W : WorldOf ctx.now) → Declared W at name.number q lines.old result lines.new }
{
    match ctx.scope.declared(Scope::RECORDS, name) {
        Some(record) => Some(record + 1),
        None => fail(codes::E0125, at, name.number, q, lines),
    }
}

// Lines for the fields of the list at a place that are not given, lib.rs 1173: E0128.
pub fn missing(
    records: &Records,
    list: usize,
    marks: &NameSet,
    step: usize,
    q: Spot,
    lines: &mut Lines,
)
    requires { PortsOf records.now list }
    ensures { (g : PortsOf records.now list) (num : Name → ℕ) → ((i : ℕ) → num (g.text i) ≡ i) → (xs : List Name) → Marked g.text xs marks.now.bits →
        Noted num q (missing_of step g.ps xs) lines.old lines.new }
{
    for (name, _) in ports_of(records, list) {
        if !marks.contains(name) {
            lines.put(q, codes::E0128, step as u64, name.number);
        }
    }
}
