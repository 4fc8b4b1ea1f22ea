// One equation of a node: its names, its right-hand side and its type, lib.rs 378 to 472; and the edges that it adds to the graph of
// immediate dependencies, lib.rs 1490.
#![tactic(auto)]

ghost use Rattle.std.specs.Prelude.{ℕ, ◌+◌, ◌<◌, ◌≡◌, ◌&&◌, ◌||◌, List, [], ◌∷◌, ◌++◌, eqb, get_or, if◌then◌else◌, option_copied};
ghost use Rattle.std.proofs.Math.Option.{some};
ghost use Rattle.lustre.specs.Name.{Name, ◌among◌, lookup};
ghost use Rattle.lustre.specs.Types.{Ty};
ghost use Rattle.lustre.specs.Expr.{contains_temporal, size};
ghost use Rattle.lustre.specs.Project.{Port, Heading, port_names};
ghost use Rattle.lustre.specs.Line.{about, bare};
ghost use Rattle.lustre.specs.Node.{assigns, wanted};
ghost use Rattle.standing.specs.Standing.{source};
ghost use Rattle.standing.specs.Owed.{There};
ghost use Rattle.lines.specs.Lines.{Noted};
ghost use Rattle.loops.specs.Rows.{has};
ghost use Rattle.types.specs.Value.{Injective, asTy};
ghost use Rattle.types.specs.Number.{asHint};
ghost use Rattle.rules.specs.Post.{HintIs};
ghost use Rattle.scope.specs.Tables.{Tables};
ghost use Rattle.scope.specs.Sets.{Holds};
ghost use Rattle.scope.specs.Names.{NamesHere, Numbers};
ghost use Rattle.body.specs.Body.{Side};
ghost use Rattle.equations.specs.Equations.{ScopedOf, LeftOf, OutputOf, OutputsOf, SidesOf, EquationOf, side_notes, output_notes, outputs_notes, tuple_notes, bound_notes, type_notes, EquationChecked, EquationHere, EdgesAdded};

use body::{check_pre, contains_temporal, immediate_reads, nested_iterators};
use infer::{RightSide, infer};
use lines::{Lines, Spot};
use loops::{GRAPH, NameSet, join_row};
use lustre::{NONE, NameId, Records, codes, kinds};
use rules::ports::ports_end;
use rules::walk::ports_of;
use scope::repeated_name;
use standing::skip;
use types::Typ;
use types::context::{Context, Scope};
use types::records::read_type;

// The line of an assigned name that is no port or local, or is an input: E0020 or E0022.
fn check_known(scope: &Scope, ins: &NameSet, name: NameId, q: Spot, lines: &mut Lines)
    ensures { (num : Name → ℕ) (x : Name) → num x ≡ name.number →
        Noted num q (if eqb (get_or scope.now.entries (name.number + 2560) 0) 0 then about 20 x ∷ []
        else if has ins.now.bits 0 name.number then about 22 x ∷ [] else []) lines.old lines.new }
{
    if scope.declared(Scope::PORTS, name).is_none() {
        lines.put(q, codes::E0020, NONE, name.number);
    } else if ins.contains(name) {
        lines.put(q, codes::E0022, NONE, name.number);
    }
}

// The lines of the assigned names in the list at a place, name by name, lib.rs 383: E0020 or E0022, then E0021 where the set `assigned` has
// the name already. Then the set has it.
// Kept: what stands in the records is asked, here and below, and is no ghost fact: it is data, and a ghost fact has one proof alone.
#[tactic(auto, using(scope::proofs::Names::names_inside, scope::proofs::Names::names_small))]
fn check_names(
    ctx: &Context,
    list: usize,
    ins: &NameSet,
    assigned: &mut NameSet,
    q: Spot,
    lines: &mut Lines,
)
    requires { NamesHere ctx.now.records.words.now list }
    ensures noted { (g : NamesHere ctx.now.records.words.now list) (num : Name → ℕ) → Numbers g.text num →
        (as' : List (Name × Ty)) (rs : List (Name × List Port)) (vs : List (Name × Name)) (cs : List (Name × Ty)) (ns : List (Name × Heading)) (env : List Port) →
        Tables (source g.ks ctx.now.records.words.now g.text) as' rs vs cs ns env ctx.now.scope.now.entries →
        (inputs seen : List Name) → Holds g.text inputs ins.now.bits → Holds g.text seen assigned.old.bits →
        Noted num q (assigns (port_names env) inputs seen g.xs) lines.old lines.new }
    ensures held { (g : NamesHere ctx.now.records.words.now list) → Injective g.text → (seen : List Name) →
        Holds g.text seen assigned.old.bits → Holds g.text (g.xs ++ seen) assigned.new.bits }
{
    let words = ctx.records.words;
    let end = list + 1 + words[list] as usize;
    for word in &words[list + 1..end] {
        let name = NameId { number: *word };
        check_known(ctx.scope, ins, name, q, lines);
        repeated_name(assigned, name, codes::E0021, q, lines);
    }
}

// The line of a function's right-hand side that has a temporal operator: E0030.
fn check_temporal(kinds: &[u8], q: Spot, lines: &mut Lines)
    requires { Side kinds.now }
    ensures { (num : Name → ℕ) (g : Side kinds.now) →
        Noted num q (if q.function && contains_temporal g.whole.e then bare 30 ∷ [] else []) lines.old lines.new }
{
    if q.function && contains_temporal(kinds) {
        lines.put(q, codes::E0030, NONE, NONE);
    }
}

// The lines of the right-hand side at a place beside its type: E0030 in a function, E0070 and E0146; and the record behind it.
fn check_side(records: &Records, start: usize, q: Spot, lines: &mut Lines) -> usize
    requires { There records.now.kinds.now records.now.words.now start }
    ensures { (g : There records.now.kinds.now records.now.words.now start) (num : Name → ℕ) →
        (result ≡ start + size g.e) × Noted num q (side_notes q.function g.e) lines.old lines.new }
{
    let next = skip(records, start);
    let kinds = &records.kinds[start..next];
    check_temporal(kinds, q, lines);
    let side = Records {
        kinds: &records.kinds[start..],
        words: &records.words[start..],
    };
    check_pre(&side, 0, false, q, lines);
    nested_iterators(kinds, q, lines);
    next
}

// The declared type of the name of a port or local, if it is one.
fn port_type(ctx: &Context, name: NameId) -> Option<Typ>
    requires { ScopedOf ctx.now }
    ensures { (w : ScopedOf ctx.now) → HintIs w.model.text (lookup (w.model.text name.number) w.env) 67 result }
{
    let port = ctx.scope.declared(Scope::PORTS, name)?;
    Some(read_type(&ctx.records, port + 1).typ)
}

// The declared type of the one name in the list at a place, as the hint for its right-hand side, lib.rs 424; no hint for none or several.
fn declared_type(ctx: &Context, list: usize) -> Option<Typ>
    requires { LeftOf ctx.now list }
    ensures { (g : LeftOf ctx.now list) → HintIs g.scoped.model.text (wanted g.scoped.env g.xs) 67 result }
{
    if ctx.records.words[list] != 1 {
        return None;
    }
    port_type(ctx, ctx.records.name(list + 1))
}

// The line of a name whose declared type is not that of the output whose type stands at a place, request 2.8: E0043. An unknown name gets none.
fn check_output(ctx: &Context, name: NameId, at: usize, q: Spot, lines: &mut Lines)
    requires { OutputOf ctx.now at }
    ensures { (g : OutputOf ctx.now at) → Noted g.scoped.model.number q (output_notes g name.number) lines.old lines.new }
{
    if let Some(want) = port_type(ctx, name) {
        let got = read_type(&ctx.records, at).typ;
        if !ctx.compatible(&want, &got) {
            lines.put(q, codes::E0043, NONE, name.number);
        }
    }
}

// The lines of the names in one list, each beside the output at its position in another, to the end of the shorter.
fn check_outputs(ctx: &Context, list: usize, outputs: usize, q: Spot, lines: &mut Lines)
    requires { OutputsOf ctx.now list outputs }
    ensures { (g : OutputsOf ctx.now list outputs) → Noted g.left.scoped.model.number q (outputs_notes g) lines.old lines.new }
{
    let words = ctx.records.words;
    let end = list + 1 + words[list] as usize;
    let names = &words[list + 1..end];
    for (word, (_, port)) in names.iter().zip(ports_of(&ctx.records, outputs)) {
        check_output(ctx, NameId { number: *word }, port + 1, q, lines);
    }
}

// The lines of a right-hand side that is a tuple of so many members, request 2.8: E0042 where there is another number of names, else E0043
// where it is itself a call, whose outputs stand behind its inputs.
fn check_tuple(ctx: &Context, list: usize, start: usize, members: u64, q: Spot, lines: &mut Lines)
    requires { SidesOf ctx.now list start }
    ensures { (g : SidesOf ctx.now list start) → Noted g.left.scoped.model.number q (tuple_notes g members) lines.old lines.new }
{
    let records = &ctx.records;
    if members != records.words[list] {
        lines.put(q, codes::E0042, NONE, NONE);
        return;
    }
    if records.kinds[start] != kinds::CALL {
        return;
    }
    if let Some(node) = ctx.scope.declared(Scope::NODES, records.name(start)) {
        let outputs = ports_end(records, node + 1);
        check_outputs(ctx, list, outputs, q, lines);
    }
}

// The lines of a right-hand side at a place whose type t does not fit the names assigned, lib.rs 440 to 472: E0042 and E0043 of a tuple, else
// E0040 or E0041. `hint` is the declared type of the one name.
fn check_bound(
    ctx: &Context,
    list: usize,
    start: usize,
    hint: Option<&Typ>,
    t: &Typ,
    q: Spot,
    lines: &mut Lines,
)
    requires { SidesOf ctx.now list start }
    ensures { (g : SidesOf ctx.now list start) → asHint g.left.scoped.model.text (option_copied hint.entry) ≡ wanted g.left.scoped.env g.left.xs →
        Noted g.left.scoped.model.number q (bound_notes g (some (asTy g.left.scoped.model.text t.now))) lines.old lines.new }
{
    let words = ctx.records.words;
    if let Some(members) = t.members() {
        check_tuple(ctx, list, start, members, q, lines);
    } else if words[list] != 1 {
        lines.put(q, codes::E0041, NONE, NONE);
    } else if let Some(want) = hint {
        if !ctx.compatible(want, t) {
            lines.put(q, codes::E0040, NONE, words[list + 1]);
        }
    }
}

// The lines of a right-hand side's type, for the names in the list at a place: those of inference, then E0040 to E0043.
fn check_type(ctx: &Context, list: usize, start: usize, q: Spot, lines: &mut Lines)
    requires { SidesOf ctx.now list start }
    ensures { (g : SidesOf ctx.now list start) → Noted g.left.scoped.model.number q (type_notes g q.function) lines.old lines.new }
{
    let declared = declared_type(ctx, list);
    let hint = declared.as_ref();
    let side = RightSide {
        ctx: *ctx,
        records: Records {
            kinds: &ctx.records.kinds[start..],
            words: &ctx.records.words[start..],
        },
    };
    if let Some(value) = infer(&side, 0, hint, q, lines) {
        check_bound(ctx, list, start, hint, &value.typ, q, lines);
    }
}

// The lines of the equation at a place, and the record behind it. `ins` has the names of the inputs, and `assigned` those assigned before.
pub fn check_equation(
    ctx: &Context,
    at: usize,
    ins: &NameSet,
    assigned: &mut NameSet,
    q: Spot,
    lines: &mut Lines,
) -> usize
    requires { EquationOf ctx.now at }
    ensures { (g : EquationOf ctx.now at) → EquationChecked g q ins.now.bits assigned.old.bits lines.old result assigned.new.bits lines.new }
{
    let list = at + 1;
    check_names(ctx, list, ins, assigned, q, lines);
    let start = list + 1 + ctx.records.words[list] as usize;
    let next = check_side(&ctx.records, start, q, lines);
    check_type(ctx, list, start, q, lines);
    next
}

// Adds an edge from each name in the list at a place to each name of the set `row`.
#[tactic(auto, using(scope::proofs::Names::names_inside, scope::proofs::Names::names_small))]
fn join_names(words: &[u64], list: usize, row: &NameSet, graph: &mut [u64; GRAPH])
    requires { NamesHere words.now list }
    ensures { (g : NamesHere words.now list) → Injective g.text → (a b : ℕ) → a < 512 → b < 512 →
        has graph.new a b ≡ (has graph.old a b || ((g.text a among g.xs) && has row.now.bits 0 b)) }
{
    let end = list + 1 + words[list] as usize;
    for name in &words[list + 1..end] {
        join_row(graph, *name as usize, &row.bits);
    }
}

// Adds the edges of the equation at a place to the graph.
pub fn add_edges(records: &Records, at: usize, graph: &mut [u64; GRAPH])
    requires { EquationHere records.now.kinds.now records.now.words.now at }
    ensures { (g : EquationHere records.now.kinds.now records.now.words.now at) → Injective g.text → EdgesAdded g.text g.eq graph.old graph.new }
{
    let mut row = NameSet::new();
    let list = at + 1;
    let start = list + 1 + records.words[list] as usize;
    immediate_reads(records, start, &mut row);
    join_names(records.words, list, &row, graph);
}
