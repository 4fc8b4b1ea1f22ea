// A node's ports and locals: entered into the scope when its check begins, and taken out again when it ends, so that a node costs what its
// own lists cost; and the lines on names that repeat or are wanting: lib.rs 353 to 376, 475 to 492 and 510 to 520.
#![tactic(auto)]

ghost use Rattle.std.specs.Prelude.{ℕ, ◌+◌, ◌<◌, ◌≤◌, ◌≡◌, List, [], ◌∷◌, ◌++◌, length};
ghost use Rattle.lustre.specs.Name.{Name};
ghost use Rattle.lustre.specs.Types.{Ty};
ghost use Rattle.lustre.specs.Project.{Port, Heading, port_names};
ghost use Rattle.lustre.specs.Node.{absent};
ghost use Rattle.standing.specs.Standing.{source};
ghost use Rattle.lines.specs.Lines.{Noted};
ghost use Rattle.types.specs.Value.{Injective};
ghost use Rattle.rules.specs.World.{PortsOf, source_of};
ghost use Rattle.scope.specs.Tables.{Tables, Forgetting};
ghost use Rattle.scope.specs.Sets.{Holds};
ghost use Rattle.scope.specs.Names.{NamesHere, Numbers};
ghost use Rattle.ports.specs.Ports.{PortsEntered};

use lines::{Lines, Spot};
use loops::NameSet;
use lustre::{NONE, NameId, Records, codes};
use rules::walk::ports_of;
use scope::redeclare;
use types::context::Scope;

// Enters the ports of the list at a place, with a line for each whose name is in force already: E0010, E0011 or E0012. The record behind
// the list.
// Kept: what stands in the records is asked, here and below, and is no ghost fact: it is data, and a ghost fact has one proof alone.
pub fn declare_ports(
    records: &Records,
    scope: &mut Scope,
    list: usize,
    code: u64,
    q: Spot,
    lines: &mut Lines,
) -> usize
    requires { PortsOf records.now list × (length records.now.kinds.now ≤ 4096) }
    ensures { (g : PortsOf records.now list) → Injective g.text → PortsEntered (source_of records.now g.text) g.ps list code q scope.old.entries lines.old result scope.new.entries lines.new }
{
    // Kept: no `for`, since where the walk ends is the answer, and behind a `for` over `ports.by_ref()` a proof knows nothing of it.
    let mut ports = ports_of(records, list);
    while let Some((name, at)) = ports.next() {
        redeclare(scope, Scope::PORTS, name, at, code, q, lines);
    }
    ports.at
}

// Adds the names of the ports of the list at a place to a set.
pub fn add_names(records: &Records, list: usize, set: &mut NameSet)
    requires { PortsOf records.now list }
    ensures { (g : PortsOf records.now list) → Injective g.text → (xs : List Name) → Holds g.text xs set.old.bits → Holds g.text (port_names g.ps ++ xs) set.new.bits }
{
    for (name, _) in ports_of(records, list) {
        set.insert(name);
    }
}

// A line for each port of the list at a place whose name a set lacks: E0050 and W0051, where the set has the names assigned.
pub fn absent_ports(
    records: &Records,
    list: usize,
    set: &NameSet,
    code: u64,
    q: Spot,
    lines: &mut Lines,
)
    requires { PortsOf records.now list }
    ensures { (g : PortsOf records.now list) (num : Name → ℕ) → Numbers g.text num → (xs : List Name) → Holds g.text xs set.now.bits → Noted num q (absent code xs (port_names g.ps)) lines.old lines.new }
{
    for (name, _) in ports_of(records, list) {
        if !set.contains(name) {
            lines.put(q, code, NONE, name.number);
        }
    }
}

// A line for each probe of the list at a place whose name is not in force, lib.rs 510: E0150.
#[tactic(auto, using(scope::proofs::Names::names_inside))]
pub fn absent_probes(words: &[u64], scope: &Scope, list: usize, q: Spot, lines: &mut Lines)
    requires { NamesHere words.now list }
    ensures { (g : NamesHere words.now list) (num : Name → ℕ) → Numbers g.text num → (as' : List (Name × Ty)) (rs : List (Name × List Port)) (vs : List (Name × Name)) (cs : List (Name × Ty)) (ns : List (Name × Heading)) (env : List Port) → Tables (source g.ks words.now g.text) as' rs vs cs ns env scope.now.entries → Noted num q (absent 150 (port_names env) g.xs) lines.old lines.new }
{
    let count = words[list] as usize;
    for word in &words[list + 1..list + 1 + count] {
        let name = NameId { number: *word };
        if scope.declared(Scope::PORTS, name).is_none() {
            lines.put(q, codes::E0150, NONE, name.number);
        }
    }
}

// Takes the ports of the list at a place out of the scope.
pub fn forget_ports(records: &Records, scope: &mut Scope, list: usize)
    requires { PortsOf records.now list }
    ensures { (g : PortsOf records.now list) → Injective g.text → (as' : List (Name × Ty)) (rs : List (Name × List Port)) (vs : List (Name × Name)) (cs : List (Name × Ty)) (ns : List (Name × Heading)) (xs : List Name) → let S = source_of records.now g.text in Forgetting S as' rs vs cs ns (port_names g.ps ++ xs) scope.old.entries → Forgetting S as' rs vs cs ns xs scope.new.entries }
{
    for (name, _) in ports_of(records, list) {
        scope.forget(Scope::PORTS, name);
    }
}
