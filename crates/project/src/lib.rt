// `check_project`, lib.rs 134: the whole report of a project, and the call that answers it or one of the eight refusals: document 01, 'What
// is lent'. The report is written in one pass after another over the records, in the order of its lines. A window on the lines may be
// asked for: those from its first on that the buffer has places for are stored, and all are counted.
#![tactic(auto)]

ghost use Rattle.std.specs.Prelude.{ℕ, ◌≤◌, ◌≡◌, List, [], length, replicate};
ghost use Rattle.lustre.specs.Project.{skeleton, all_constants, all_nodes};
ghost use Rattle.lustre.specs.Resolve.{context};
ghost use Rattle.lustre.specs.Report.{constant_lines, nodes_lines, report as report_of, looks_all, followed};
ghost use Rattle.lustre.specs.declared.Answer.TheVariants.{Report};
ghost use Rattle.scope.specs.Model.{Model};
ghost use Rattle.scope.specs.Writes.{Reports};
ghost use Rattle.nodes.specs.Nodes.{Blank};
ghost use Rattle.tables.specs.Entered.{AliasesBelow};
ghost use Rattle.project.specs.Call.{Called, ModelDeclared, ModelDeclaredOf, JudgedAs};

use constants::check_constant;
use input::check_input;
use lines::{Lines, Spot};
use loops::{GRAPH, NameSet, PATH};
use lustre::{AT_CONSTANT, Answer, NAMES, Records, kinds};
use nodes::check_node;
use tables::{check_aliases, declare_nodes, declare_types};
use types::context::{Context, ENTRIES, Scope};

// The lines of every constant, in one pass, lib.rs 262.
// Kept: the project that stands in the records is asked, here and below, and is no ghost fact: it is data, and a ghost fact has one proof.
fn check_constants(ctx: &Context, lines: &mut Lines)
    requires { ModelDeclaredOf ctx.now }
    ensures { (g : ModelDeclaredOf ctx.now) →
        Reports g.model.number (constant_lines (context (skeleton g.model.P)) 0 [] (all_constants (skeleton g.model.P))) lines.old lines.new }
{
    let mut seen = NameSet::new();
    let mut number = 0;
    for at in 1..ctx.records.kinds.len() {
        if ctx.records.kinds[at] == kinds::CONSTANT {
            let q = Spot {
                function: true,
                ..Spot::about(AT_CONSTANT, number)
            };
            check_constant(ctx, &mut seen, at, q, lines);
            number += 1;
        }
    }
}

// The lines and looks of every node, in one pass. The graph and the path are lent to one node after another.
fn check_nodes(
    records: &Records,
    scope: &mut Scope,
    graph: &mut [u64; GRAPH],
    lines: &mut Lines,
) -> u64
    requires declared { ModelDeclared records.now.kinds.now records.now.words.now scope.old.entries }
    requires blank { Blank graph.old }
    ensures { (g : ModelDeclared records.now.kinds.now records.now.words.now scope.old.entries) →
        Reports g.model.number (nodes_lines (context (skeleton g.model.P)) 0 (all_nodes g.model.P)) lines.old lines.new
        × (result ≡ looks_all (all_nodes g.model.P)) }
{
    let mut path = [0; PATH];
    let mut number = 0;
    let mut looks = 0;
    for at in 1..records.kinds.len() {
        match records.kinds[at] {
            kinds::FUNCTION..=kinds::IMPORTED => {
                looks += check_node(records, scope, graph, &mut path, at, number, lines);
                number += 1;
            }
            _ => {}
        }
    }
    looks
}

// The lines of the project's report and the number of edges followed. `names` is the number of names, and `graph` 4,096 zero words that are
// lent to one node after another.
// Kept: that the records hold a project, whose aliases are below `names`, is asked, here and below: it is of records and names together.
pub fn report(records: &Records, names: u64, graph: &mut [u64; GRAPH], lines: &mut Lines) -> u64
    requires model { (g : Model records.now.kinds.now records.now.words.now) × (g.names ≡ names) }
    requires aliases { AliasesBelow records.now.kinds.now records.now.words.now names }
    requires blank { Blank graph.old }
    ensures { (g : Model records.now.kinds.now records.now.words.now) → g.names ≡ names →
        Reports g.number (report_of g.P) lines.old lines.new × (result ≡ followed g.P) }
{
    let mut scope = Scope {
        entries: [0; ENTRIES],
    };
    let mut numbers = [0; NAMES];
    declare_types(records, &mut scope, &mut numbers, lines);
    let ctx = Context {
        records: *records,
        scope: &scope,
    };
    check_aliases(&ctx, &numbers, names, lines);
    declare_nodes(records, &mut scope, lines);
    let ctx = Context {
        records: *records,
        scope: &scope,
    };
    check_constants(&ctx, lines);
    check_nodes(records, &mut scope, graph, lines)
}

// The report of accepted input, or refusal 7. The first 4,096 words of the work memory are the graph; all of it is zero after either answer.
fn judge(records: &Records, names: u64, work: &mut [u64], out: &mut [u64]) -> Answer
    requires model { (g : Model records.now.kinds.now records.now.words.now) × (g.names ≡ names) }
    requires aliases { AliasesBelow records.now.kinds.now records.now.words.now names }
    requires room { 4096 ≤ length work.old }
    ensures cleared { work.new ≡ replicate (length work.old) 0 }
    ensures judged { (g : Model records.now.kinds.now records.now.words.now) → g.names ≡ names → JudgedAs g out.old result out.new }
{
    let room = out.len() as u64 / 6;
    let mut lines = Lines {
        out,
        first: 0,
        count: 0,
    };
    work.fill(0);
    let graph = work.first_chunk_mut::<GRAPH>().unwrap();
    let looks = report(records, names, graph, &mut lines);
    work.fill(0);
    let count = lines.count;
    if count <= room {
        Answer::Report(count, looks)
    } else {
        Answer::MoreLines(count)
    }
}

// The report on a blank file, a project without packages: no line and no edge. All work memory is zero after it.
pub fn report_blank(work: &mut [u64]) -> Answer
    ensures { (result ≡ Report 0 0) × ((n : ℕ) → length work.old ≡ n → work.new ≡ replicate n 0) }
{
    work.fill(0);
    Answer::Report(0, 0)
}

// The check of a project: a report or one of eight refusals. `lines` has six words a line, in the order of the fields of `lustre::Line`.
// Refusals 1 to 6 and 8 change nothing. After a report the lines are written, and after refusal 7 the first that fit; then all work memory is
// zero.
// Kept: kinds and words are two parameters, since C lends them so.
pub fn check(
    kinds: &[u8],
    words: &[u64],
    text: &[u8],
    work: &mut [u64],
    lines: &mut [u64],
) -> Answer
    ensures { Called kinds.now words.now text.now work.old lines.old result work.new lines.new }
{
    match check_input(kinds, words, text, work.len()) {
        Ok(Some(names)) => judge(&Records { kinds, words }, names, work, lines),
        Ok(None) => report_blank(work),
        Err(r) => Answer::Refused(r),
    }
}
