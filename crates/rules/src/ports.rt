// Lists of ports in the records: a node's inputs and outputs, and a record's fields. A list record has the number of ports; a port is a
// record with its name and a type behind it. And what a call asks of its callee before its arguments.
ghost use Rattle.std.specs.Prelude.{◌≡◌, ◌&&◌, [], ◌∷◌, ℕ, ◌+◌, ◌^◌, ◌<◌, IfSome, if◌then◌else◌};
ghost use Rattle.lustre.specs.Name.{Name};
ghost use Rattle.lustre.specs.Types.{levels};
ghost use Rattle.lustre.specs.Project.{NodeKind, is_operator};
ghost use Rattle.lustre.specs.Grammar.{node_kind};
ghost use Rattle.lustre.specs.Line.{named};
ghost use Rattle.lustre.specs.Infer.{outputs_type};
ghost use Rattle.standing.specs.Standing.{ports_size};
ghost use Rattle.lines.specs.Lines.{Noted};
ghost use Rattle.types.specs.Value.{Injective};
ghost use Rattle.rules.specs.World.{WorldOf, TypeOf, PortsOf, source_of};
ghost use Rattle.rules.specs.Post.{TypeIs};
ghost use Rattle.rules.specs.Ports.{PortFound, Called};

use crate::fail;
use crate::walk::ports_of;
use lines::{Lines, Spot};
use lustre::{NameId, Records, codes, kinds};
use types::context::{Context, Scope};
use types::records::{last_of, read_type};
use types::{Typ, UNIT};

// The record behind the type at a place.
#[tactic(auto, using(crate::proofs::Places::type_there, crate::proofs::Places::last_ends))]
pub fn type_end(records: &Records, at: usize) -> usize
    requires { TypeOf records.now at }
    ensures { (g : TypeOf records.now at) → result ≡ at + levels g.t }
{
    last_of(records, at) + 1
}

// The record behind the list of ports at a place.
pub fn ports_end(records: &Records, at: usize) -> usize
    requires { PortsOf records.now at }
    ensures { (g : PortsOf records.now at) → result ≡ at + ports_size g.ps }
{
    // Kept: no `for`, since where the walk ends is the answer, and behind a `for` over `ports.by_ref()` a proof knows nothing of it.
    let mut ports = ports_of(records, at);
    while ports.next().is_some() {}
    ports.at
}

// The first port of a name in the list at a place.
pub fn find_port(records: &Records, at: usize, name: u64) -> Option<usize>
    requires { PortsOf records.now at }
    ensures port { (g : PortsOf records.now at) → Injective g.text → PortFound (source_of records.now g.text) g.ps (g.text name) result }
    ensures below { IfSome result (λ p. p + 1 < 2 ^ 64) }
{
    for (port, place) in ports_of(records, at) {
        if port.number == name {
            return Some(place);
        }
    }
    None
}

// The type of a call, by the list of its outputs at a place, lib.rs 1001.
pub fn outputs_type(records: &Records, at: usize) -> Typ
    requires { PortsOf records.now at }
    ensures { (g : PortsOf records.now at) → TypeIs g.text (outputs_type g.ps) 67 result }
{
    match records.words[at] {
        0 => Typ::basic(UNIT),
        1 => read_type(records, at + 2).typ,
        count => Typ::tuple(count),
    }
}

// A line where a function calls an operator, lib.rs 956: E0101.
fn kind_rule(kind: u8, call: usize, name: u64, q: Spot, lines: &mut Lines)
    ensures { (num : Name → ℕ) (x : Name) (k : NodeKind) → num x ≡ name → node_kind k ≡ kind →
        Noted num q (if◌then◌else◌ (q.function && is_operator k) (named call 101 x ∷ []) []) lines.old lines.new }
{
    if q.function && kind == kinds::OPERATOR {
        lines.put(q, codes::E0101, call as u64, name);
    }
}

// What a call with so many arguments asks of its callee, lib.rs 948 to 979: E0100 to E0102. The callee's first port.
pub fn called(
    ctx: &Context,
    name: NameId,
    count: u64,
    at: usize,
    q: Spot,
    lines: &mut Lines,
) -> Option<usize>
    requires { WorldOf ctx.now }
    ensures { (W : WorldOf ctx.now) → Called W at name.number count q lines.old result lines.new }
{
    let Some(node) = ctx.scope.declared(Scope::NODES, name) else {
        return fail(codes::E0100, at, name.number, q, lines);
    };
    kind_rule(ctx.records.kinds[node], at, name.number, q, lines);
    let inputs = node + 1;
    if count != ctx.records.words[inputs] {
        return fail(codes::E0102, at, name.number, q, lines);
    }
    Some(inputs + 1)
}
