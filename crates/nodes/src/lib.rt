// `check_node`, lib.rs 331: the lines of one node and the looks of its search, in document 01's order. Its ports and locals stand in the
// scope, and its edges in the graph, only while it is checked, and are taken out by its own lists: so a node costs what its records cost.
#![tactic(auto)]

ghost use Rattle.std.specs.Prelude.{ℕ, ◌+◌, ◌≤◌, ◌≡◌, List, [], map};
ghost use Rattle.lustre.specs.Name.{Name};
ghost use Rattle.lustre.specs.Project.{NodeKind, Equation, Imported, port_names, is_function};
ghost use Rattle.lustre.specs.Deps.{defined};
ghost use Rattle.lustre.specs.Node.{path_notes, cycle_notes, looks as looks_of};
ghost use Rattle.standing.specs.Standing.{probes_from};
ghost use Rattle.lines.specs.Lines.{Noted};
ghost use Rattle.loops.specs.Search.{Shows};
ghost use Rattle.types.specs.Value.{Naming};
ghost use Rattle.scope.specs.Names.{Numbers};
ghost use Rattle.scope.specs.Tables.{Declared};
ghost use Rattle.scope.specs.Sets.{Holds};
ghost use Rattle.nodes.specs.Nodes.{Blank, NodeGiven, InCheck, InCheckOf, GraphOf, EquationsChecked, NodeOpened, NodeClosed, NodeChecked, ImportedHere, imported_notes};

use equations::{add_edges, check_equation};
use lines::{Lines, Spot};
use loops::{GRAPH, NameSet, PATH, Searched, clear_rows, search};
use lustre::{AT_NODE, NONE, Records, codes, kinds};
use ports::{absent_ports, absent_probes, add_names, declare_ports, forget_ports};
use rules::ports::ports_end;
use types::context::{Context, Scope};

// The lines of the equations of a node in its check, lib.rs 378, and the record behind them; the names assigned are added to the set and the
// edges to the graph.
// Kept: `next` goes beside the for, since checking an equation tells where it ends.
// Kept: what stands in the records is asked, here and below, and is no ghost fact: it is data, and a ghost fact has one proof alone.
fn check_equations(
    ctx: &Context,
    lists: &Opened,
    ins: &NameSet,
    assigned: &mut NameSet,
    graph: &mut [u64; GRAPH],
    q: Spot,
    lines: &mut Lines,
) -> usize
    requires node { InCheckOf ctx.now lists.now }
    ensures { (g : InCheckOf ctx.now lists.now) → is_function g.node.n.kind ≡ q.function → q.place ≡ 4 →
        Holds g.node.model.text (port_names g.node.n.inputs) ins.now.bits → Holds g.node.model.text [] assigned.old.bits → Blank graph.old →
        EquationsChecked g.node.model g.node.n lists.now.equations q lines.old result assigned.new.bits graph.new lines.new }
{
    let list = lists.equations;
    let mut next = list + 1;
    for equation in 0..ctx.records.words[list] {
        add_edges(&ctx.records, next, graph);
        next = check_equation(ctx, next, ins, assigned, Spot { equation, ..q }, lines);
    }
    next
}

// The lines of a loop, a line a name: E0060.
fn loop_lines(path: &[u64], q: Spot, lines: &mut Lines)
    ensures { (text : Naming) (num : Name → ℕ) → Numbers text num → Noted num q (path_notes 0 (map text path.now)) lines.old lines.new }
{
    for (step, name) in path.iter().enumerate() {
        lines.put(q, codes::E0060, step as u64, *name);
    }
}

// The lines of the loop that the search finds, lib.rs 495, and the looks that it takes. `path` is lent to the search.
fn check_loops(
    graph: &[u64; GRAPH],
    assigned: &NameSet,
    path: &mut [u64; PATH],
    q: Spot,
    lines: &mut Lines,
) -> u64
    ensures few { result ≤ 262144 }
    ensures noted { (kind : NodeKind) (qs : List Equation) (text : Naming) (num : Name → ℕ) (names : ℕ) → (kind ≡ Imported → ⊥) →
        Numbers text num → Shows qs text names graph.now assigned.now.bits →
        Noted num q (cycle_notes kind qs) lines.old lines.new × (result ≡ looks_of kind qs) }
{
    let Searched { found, looks } = search(graph, &assigned.bits, path);
    if let Some(range) = found {
        loop_lines(&path[range], q, lines);
    }
    looks
}

// Where a node's lists are.
#[derive(Drop)]
struct Opened {
    inputs: usize,
    outputs: usize,
    locals: usize,
    equations: usize,
}

// Enters the ports and locals of the node at a record, with E0010, E0011 and E0012, lib.rs 353, and its inputs into a set.
fn open_node(
    records: &Records,
    scope: &mut Scope,
    at: usize,
    ins: &mut NameSet,
    q: Spot,
    lines: &mut Lines,
) -> Opened
    requires { NodeGiven records.now.kinds.now records.now.words.now scope.old.entries at }
    ensures { (g : NodeGiven records.now.kinds.now records.now.words.now scope.old.entries at) → Holds g.model.text [] ins.old.bits →
        NodeOpened g.model g.n at q lines.old result scope.new.entries ins.new.bits lines.new }
{
    let inputs = at + 1;
    add_names(records, inputs, ins);
    let outputs = declare_ports(records, scope, inputs, codes::E0010, q, lines);
    let locals = declare_ports(records, scope, outputs, codes::E0011, q, lines);
    let equations = declare_ports(records, scope, locals, codes::E0012, q, lines);
    Opened {
        inputs,
        outputs,
        locals,
        equations,
    }
}

// The lines of a node in its check behind those of its equations, lib.rs 475 to 520: E0050, W0051, E0060, E0150; and its looks.
fn close_node(
    ctx: &Context,
    lists: &Opened,
    probes: usize,
    assigned: &NameSet,
    graph: &[u64; GRAPH],
    path: &mut [u64; PATH],
    q: Spot,
    lines: &mut Lines,
) -> u64
    requires { (g : InCheckOf ctx.now lists.now) × (probes ≡ probes_from g.node.n g.at) }
    ensures { (g : InCheckOf ctx.now lists.now) → probes ≡ probes_from g.node.n g.at → (g.node.n.kind ≡ Imported → ⊥) →
        Holds g.node.model.text (defined g.node.n.equations) assigned.now.bits → GraphOf g.node.model g.node.n graph.now →
        NodeClosed g.node.model g.node.n q lines.old result lines.new }
{
    absent_ports(
        &ctx.records,
        lists.outputs,
        assigned,
        codes::E0050,
        q,
        lines,
    );
    absent_ports(&ctx.records, lists.locals, assigned, codes::W0051, q, lines);
    let looks = check_loops(graph, assigned, path, q, lines);
    absent_probes(ctx.records.words, ctx.scope, probes, q, lines);
    looks
}

// Takes a node in its check out of the scope and out of the graph.
fn clear_node(
    records: &Records,
    scope: &mut Scope,
    lists: &Opened,
    assigned: &NameSet,
    graph: &mut [u64; GRAPH],
)
    requires node { InCheck records.now.kinds.now records.now.words.now scope.old.entries lists.now }
    ensures { (g : InCheck records.now.kinds.now records.now.words.now scope.old.entries lists.now) →
        Holds g.node.model.text (defined g.node.n.equations) assigned.now.bits → GraphOf g.node.model g.node.n graph.old →
        Declared g.node.model [] scope.new.entries × Blank graph.new }
{
    clear_rows(graph, assigned);
    forget_ports(records, scope, lists.inputs);
    forget_ports(records, scope, lists.outputs);
    forget_ports(records, scope, lists.locals);
}

// The lines and looks of the node at a record that is not imported.
fn check_body(
    records: &Records,
    scope: &mut Scope,
    graph: &mut [u64; GRAPH],
    path: &mut [u64; PATH],
    at: usize,
    q: Spot,
    lines: &mut Lines,
) -> u64
    requires node { (g : NodeGiven records.now.kinds.now records.now.words.now scope.old.entries at)
        × (is_function g.n.kind ≡ q.function) × (g.n.kind ≡ Imported → ⊥) }
    requires spot { (q.place ≡ 4) × (q.equation ≡ 18_446_744_073_709_551_615) }
    requires blank { Blank graph.old }
    ensures { (g : NodeGiven records.now.kinds.now records.now.words.now scope.old.entries at) → is_function g.n.kind ≡ q.function →
        (g.n.kind ≡ Imported → ⊥) → NodeChecked g.model g.n q.number lines.old result scope.new.entries graph.new lines.new }
{
    let mut ins = NameSet::new();
    let mut assigned = NameSet::new();
    let lists = open_node(records, scope, at, &mut ins, q, lines);
    let ctx = Context {
        records: *records,
        scope,
    };
    let probes = check_equations(&ctx, &lists, &ins, &mut assigned, graph, q, lines);
    let looks = close_node(&ctx, &lists, probes, &assigned, graph, path, q, lines);
    clear_node(records, scope, &lists, &assigned, graph);
    looks
}

// The line of the imported node at a record that has equations, lib.rs 339: E0002.
fn check_imported(records: &Records, at: usize, q: Spot, lines: &mut Lines)
    requires { ImportedHere records.now.kinds.now records.now.words.now at }
    ensures { (g : ImportedHere records.now.kinds.now records.now.words.now at) (num : Name → ℕ) →
        Noted num q (imported_notes g.n.equations) lines.old lines.new }
{
    let outputs = ports_end(records, at + 1);
    let locals = ports_end(records, outputs);
    let equations = ports_end(records, locals);
    if records.words[equations] != 0 {
        lines.put(q, codes::E0002, NONE, NONE);
    }
}

// The lines of the node at a record, which is number `number`, and its looks. Neither the scope nor the graph holds anything of a node
// before or after it.
// Kept: records, scope, graph and path go one by one, since each is lent to other parts of a node's check; and that the graph is blank is
// asked and promised, since in between it is not.
pub fn check_node(
    records: &Records,
    scope: &mut Scope,
    graph: &mut [u64; GRAPH],
    path: &mut [u64; PATH],
    at: usize,
    number: u64,
    lines: &mut Lines,
) -> u64
    requires node { NodeGiven records.now.kinds.now records.now.words.now scope.old.entries at }
    requires blank { Blank graph.old }
    ensures { (g : NodeGiven records.now.kinds.now records.now.words.now scope.old.entries at) →
        NodeChecked g.model g.n number lines.old result scope.new.entries graph.new lines.new }
{
    let kind = records.kinds[at];
    let q = Spot {
        function: kind == kinds::FUNCTION,
        ..Spot::about(AT_NODE, number)
    };
    if kind == kinds::IMPORTED {
        check_imported(records, at, q, lines);
        return 0;
    }
    check_body(records, scope, graph, path, at, q, lines)
}
