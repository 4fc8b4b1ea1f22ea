// The types of expressions: `infer_expr_type`, lib.rs 710, and `infer_iterator_type`, lib.rs 1233. This crate is the recursion alone:
// each construct types its parts in the order of the Rust, each once, and hands their types to its rule, which stands in `rules`.
// A right-hand side has its context, the whole project's records for what is declared, and the part of them from its first record on, so
// that places are steps.
#![tactic(auto)]

ghost use Rattle.std.specs.Prelude.{◌≡◌, ◌&&◌, ◌+◌, ◌<◌, ◌≤◌, eqb, length, Option, None, option_copied};
ghost use Rattle.types.specs.Place.{Read};
ghost use Rattle.types.specs.declared.Typ.{Typ};
ghost use Rattle.lustre.specs.declared.kinds.TheConstants.{INT_LITERAL, VARIABLE, MINUS, SHIFT_RIGHT, IF, CALL, FIELD, INDEX, TUPLE, ARRAY, STRUCT, CAST, MERGE};
ghost use Rattle.lustre.specs.Expr.{Fold};
ghost use Rattle.lustre.specs.Grammar.{unary_kind, when_kind};
ghost use Rattle.rules.specs.World.{TypeOf};
ghost use Rattle.rules.specs.Post.{Given, Inferring};
ghost use Rattle.rules.specs.Lists.{GivenArg, DoneArg, GivenArgs, DoneArgs, DoneItem, GivenItems, DoneItems, GivenValue, DoneValue, GivenValues, DoneValues, GivenArrays, DoneArrays};
ghost use Rattle.infer.specs.Post.{kind_at, Kind, GivenBoth, DoneBoth, GivenGather, DoneGather, ListBehind, MapBehind};

use lines::{Lines, Spot};
use loops::NameSet;
use lustre::{NONE, NameId, Records, codes, kinds};
use rules::hints::{element_hint, sub_hint};
use rules::iterators::{ArraysLeft, Kept, fold_end, fold_inputs, iterated, map_rule, take_array};
use rules::ports::{called, find_port, outputs_type};
use rules::structs::{ValuesLeft, missing, record_of, struct_name};
use rules::walk::ports_of;
use rules::{
    Seen, agree_rule, cast_rule, class_of, clock_rule, fail, field_rule, index_rule, is_truth,
    item_rule, literal_rule, operands, unary_rule, unless_agrees, var_rule,
};
use standing::skip;
use types::context::Context;
use types::records::read_type;
use types::{Typ, Typed};

// A right-hand side: what it is judged by, and the records from its first on.
// Kept: `equations` and `constants` write one out, since a function that makes it would ask and promise what each knows at its place.
#[derive(Clone, Copy)]
pub struct RightSide<'a> {
    pub ctx: Context<'a>,
    pub records: Records<'a>,
    pub ghost few: { length records.kinds.now ≤ 4096 },
}

// What an iterator has before its last tests: the list of its function's inputs, the type of its output, what is kept of the arrays, and
// where the next record is.
#[derive(Drop)]
pub struct Gathered {
    pub inputs: usize,
    pub result: Typ,
    pub kept: Kept,
    pub next: usize,
}

// Whether a record of kind o before one of kind k is a minus directly on an integer literal, lib.rs 773.
fn is_signed(o: u8, k: u8) -> bool
    ensures { result ≡ (eqb o MINUS && eqb k INT_LITERAL) }
{
    o == kinds::MINUS && k == kinds::INT_LITERAL
}

// A literal, lib.rs 721 to 729.
// Kept: what stands in the records is asked, here and below, and is no ghost fact: it is data, and a ghost fact has one proof alone.
fn literal(
    side: &RightSide,
    at: usize,
    hint: Option<&Typ>,
    q: Spot,
    lines: &mut Lines,
) -> Option<Typed>
    requires { Given side.now.ctx side.now.records at × (kind_at side.now.records at < VARIABLE) }
    ensures { Inferring side.now.ctx side.now.records at (option_copied hint.entry) q lines.old result lines.new }
{
    let k = side
        .ctx
        .literal_type(side.records.kinds[at], side.records.words[at], hint);
    let typ = literal_rule(k, at, q, lines)?;
    Some(Typed { typ, next: at + 1 })
}

// A variable, lib.rs 754.
fn variable(side: &RightSide, at: usize, q: Spot, lines: &mut Lines) -> Option<Typed>
    requires { Given side.now.ctx side.now.records at × (kind_at side.now.records at ≡ VARIABLE) }
    ensures { (h : Option Typ) → Inferring side.now.ctx side.now.records at h q lines.old result lines.new }
{
    let typ = var_rule(&side.ctx, side.records.name(at), at, q, lines)?;
    Some(Typed { typ, next: at + 1 })
}

// A tuple, lib.rs 1198: its parts are not typed.
fn tuple(side: &RightSide, at: usize, q: Spot, lines: &mut Lines) -> Option<Typed>
    requires { Given side.now.ctx side.now.records at × (kind_at side.now.records at ≡ TUPLE) }
    ensures { (h : Option Typ) → Inferring side.now.ctx side.now.records at h q lines.old result lines.new }
{
    Some(Typed {
        typ: Typ::tuple(side.records.words[at]),
        next: skip(&side.records, at),
    })
}

// The type of the port at a place, and the record behind it.
fn port_type(records: &Records, port: usize) -> Typed
    requires { TypeOf records.now (port + 1) }
    ensures { Read records.now.kinds.now records.now.words.now (port + 1) result.typ result.next }
{
    read_type(records, port + 1)
}

// `not` and minus, lib.rs 770: a minus directly on an integer literal is a signed literal.
#[cycle(inference)]
fn unary(
    side: &RightSide,
    at: usize,
    hint: Option<&Typ>,
    q: Spot,
    lines: &mut Lines,
) -> Option<Typed>
    requires { Given side.now.ctx side.now.records at × Kind unary_kind side.now.records at }
    ensures { Inferring side.now.ctx side.now.records at (option_copied hint.entry) q lines.old result lines.new }
{
    let o = side.records.kinds[at];
    let p = at + 1;
    if is_signed(o, side.records.kinds[p]) {
        let k = side
            .ctx
            .integer_literal_type(side.records.words[p], true, hint);
        let typ = literal_rule(k, at, q, lines)?;
        return Some(Typed { typ, next: at + 2 });
    }
    let a = infer(side, p, hint, q, lines)?;
    let typ = unary_rule(&side.ctx, o, a.typ, at, q, lines)?;
    Some(Typed { typ, next: a.next })
}

// A binary operator, lib.rs 805: the right operand has the left one's type as hint if that is an integer type, lib.rs 818.
#[cycle(inference)]
fn binary(
    side: &RightSide,
    at: usize,
    hint: Option<&Typ>,
    q: Spot,
    lines: &mut Lines,
) -> Option<Typed>
    requires { Given side.now.ctx side.now.records at
        × (MINUS < kind_at side.now.records at) × (kind_at side.now.records at ≤ SHIFT_RIGHT) }
    ensures { Inferring side.now.ctx side.now.records at (option_copied hint.entry) q lines.old result lines.new }
{
    let class = class_of(side.records.kinds[at]);
    let h = sub_hint(class, hint);
    let l = infer(side, at + 1, h, q, lines)?;
    let right = if l.typ.is_integer() { Some(&l.typ) } else { h };
    let r = infer(side, l.next, right, q, lines)?;
    let typ = operands(&side.ctx, class, l.typ, &r.typ, at, q, lines)?;
    Some(Typed { typ, next: r.next })
}

// Two parts that must agree, the second hinted by the first, lib.rs 917, 934 and 1207: the branches of `if` and `merge`, the sides of `->`.
#[cycle(inference)]
fn both(
    side: &RightSide,
    first: usize,
    step: usize,
    code: u64,
    hint: Option<&Typ>,
    q: Spot,
    lines: &mut Lines,
) -> Option<Typed>
    requires { GivenBoth side.now.ctx side.now.records first }
    ensures { DoneBoth side.now.ctx side.now.records first step code (option_copied hint.entry) q lines.old result lines.new }
{
    let a = infer(side, first, hint, q, lines)?;
    let b = infer(side, a.next, hint.or(Some(&a.typ)), q, lines)?;
    let typ = agree_rule(&side.ctx, code, a.typ, &b.typ, step, q, lines)?;
    Some(Typed { typ, next: b.next })
}

// `if`, lib.rs 901: E0090, E0091.
#[cycle(inference)]
fn ite(side: &RightSide, at: usize, hint: Option<&Typ>, q: Spot, lines: &mut Lines) -> Option<Typed>
    requires { Given side.now.ctx side.now.records at × (kind_at side.now.records at ≡ IF) }
    ensures { Inferring side.now.ctx side.now.records at (option_copied hint.entry) q lines.old result lines.new }
{
    let wanted = Typ::basic(kinds::BOOL);
    let c = infer(side, at + 1, Some(&wanted), q, lines)?;
    if is_truth(&side.ctx, &c.typ) {
        return both(side, c.next, at, codes::E0091, hint, q, lines);
    }
    fail(codes::E0090, at, NONE, q, lines)
}

// `when`, lib.rs 1199.
#[cycle(inference)]
fn when(
    side: &RightSide,
    at: usize,
    hint: Option<&Typ>,
    q: Spot,
    lines: &mut Lines,
) -> Option<Typed>
    requires { Given side.now.ctx side.now.records at × Kind when_kind side.now.records at }
    ensures { Inferring side.now.ctx side.now.records at (option_copied hint.entry) q lines.old result lines.new }
{
    clock_rule(&side.ctx, side.records.name(at), at, q, lines);
    infer(side, at + 1, hint, q, lines)
}

// `merge`, lib.rs 1204: E0131.
#[cycle(inference)]
fn merge(
    side: &RightSide,
    at: usize,
    hint: Option<&Typ>,
    q: Spot,
    lines: &mut Lines,
) -> Option<Typed>
    requires { Given side.now.ctx side.now.records at × (kind_at side.now.records at ≡ MERGE) }
    ensures { Inferring side.now.ctx side.now.records at (option_copied hint.entry) q lines.old result lines.new }
{
    clock_rule(&side.ctx, side.records.name(at), at, q, lines);
    both(side, at + 1, at, codes::E0131, hint, q, lines)
}

// A field, lib.rs 1007.
#[cycle(inference)]
fn field(side: &RightSide, at: usize, q: Spot, lines: &mut Lines) -> Option<Typed>
    requires { Given side.now.ctx side.now.records at × (kind_at side.now.records at ≡ FIELD) }
    ensures { (h : Option Typ) → Inferring side.now.ctx side.now.records at h q lines.old result lines.new }
{
    let a = infer(side, at + 1, None, q, lines)?;
    let typ = field_rule(&side.ctx, side.records.words[at], &a.typ, at, q, lines)?;
    Some(Typed { typ, next: a.next })
}

// An index, lib.rs 1052.
#[cycle(inference)]
fn index(side: &RightSide, at: usize, q: Spot, lines: &mut Lines) -> Option<Typed>
    requires { Given side.now.ctx side.now.records at × (kind_at side.now.records at ≡ INDEX) }
    ensures { (h : Option Typ) → Inferring side.now.ctx side.now.records at h q lines.old result lines.new }
{
    let b = infer(side, at + 1, None, q, lines)?;
    let wanted = Typ::basic(kinds::INT32);
    let i = infer(side, b.next, Some(&wanted), q, lines)?;
    let typ = index_rule(&side.ctx, &b.typ, &i.typ, at, q, lines)?;
    Some(Typed { typ, next: i.next })
}

// A cast, lib.rs 730.
#[cycle(inference)]
fn cast(side: &RightSide, at: usize, q: Spot, lines: &mut Lines) -> Option<Typed>
    requires { Given side.now.ctx side.now.records at × (kind_at side.now.records at ≡ CAST) }
    ensures { (h : Option Typ) → Inferring side.now.ctx side.now.records at h q lines.old result lines.new }
{
    let to = read_type(&side.records, at + 1);
    let a = infer(side, to.next, None, q, lines)?;
    let typ = cast_rule(&side.ctx, to.typ, &a.typ, at, q, lines)?;
    Some(Typed { typ, next: a.next })
}

// An argument at a place beside the port at another, lib.rs 983: E0103.
#[cycle(inference)]
fn arg(
    side: &RightSide,
    at: usize,
    port: usize,
    step: usize,
    name: u64,
    q: Spot,
    lines: &mut Lines,
) -> Seen
    requires { GivenArg side.now.ctx side.now.records at port }
    ensures { (g : GivenArg side.now.ctx side.now.records at port) →
        DoneArg side.now.ctx side.now.records at port step name g q lines.old result lines.new }
{
    let want = port_type(&side.ctx.records, port);
    let port = want.next;
    let Some(a) = infer(side, at, Some(&want.typ), q, lines) else {
        return Seen {
            next: skip(&side.records, at),
            port,
        };
    };
    unless_agrees(
        &side.ctx,
        &want.typ,
        &a.typ,
        codes::E0103,
        step,
        name,
        q,
        lines,
    );
    Seen { next: a.next, port }
}

// The arguments of a call, lib.rs 983.
// Kept: walks over operands here and below hold their place beside a for, since typing an operand tells where it ends; and here a port goes
// along and no `ports_of`, since the walk would pass each type once more, and where the ports end the outputs stand.
#[cycle(inference)]
fn args(
    side: &RightSide,
    at: usize,
    port: usize,
    count: u64,
    step: usize,
    name: u64,
    q: Spot,
    lines: &mut Lines,
) -> Seen
    requires { GivenArgs side.now.ctx side.now.records at port count }
    ensures { (g : GivenArgs side.now.ctx side.now.records at port count) →
        DoneArgs side.now.ctx side.now.records at port count step name g q lines.old result lines.new }
{
    let mut seen = Seen { next: at, port };
    for _ in 0..count {
        seen = arg(side, seen.next, seen.port, step, name, q, lines);
    }
    seen
}

// A call, lib.rs 948.
#[cycle(inference)]
fn call(side: &RightSide, at: usize, q: Spot, lines: &mut Lines) -> Option<Typed>
    requires { Given side.now.ctx side.now.records at × (kind_at side.now.records at ≡ CALL) }
    ensures { (h : Option Typ) → Inferring side.now.ctx side.now.records at h q lines.old result lines.new }
{
    let name = side.records.name(at);
    let count = side.records.words[at + 1];
    let port = called(&side.ctx, name, count, at, q, lines)?;
    let a = args(side, at + 2, port, count, at, name.number, q, lines);
    Some(Typed {
        typ: outputs_type(&side.ctx.records, a.port),
        next: a.next,
    })
}

// An item of the array at `step`, whose first item has the type `first`, lib.rs 1114: E0124. The record behind it.
#[cycle(inference)]
fn item(
    side: &RightSide,
    at: usize,
    first: &Typ,
    h: Option<&Typ>,
    step: usize,
    q: Spot,
    lines: &mut Lines,
) -> Option<usize>
    requires { Given side.now.ctx side.now.records at }
    ensures { (g : Given side.now.ctx side.now.records at) →
        DoneItem side.now.ctx side.now.records at (option_copied h.entry) first.now step g q lines.old result lines.new }
{
    let a = infer(side, at, h, q, lines)?;
    item_rule(&side.ctx, first, &a.typ, step, q, lines).then_some(a.next)
}

// The items of an array behind the first.
#[cycle(inference)]
fn items(
    side: &RightSide,
    at: usize,
    count: u64,
    first: &Typ,
    h: Option<&Typ>,
    step: usize,
    q: Spot,
    lines: &mut Lines,
) -> Option<usize>
    requires { GivenItems side.now.ctx side.now.records at count }
    ensures { (g : GivenItems side.now.ctx side.now.records at count) →
        DoneItems side.now.ctx side.now.records at count (option_copied h.entry) first.now step g q lines.old result lines.new }
{
    let mut next = at;
    for _ in 0..count {
        next = item(side, next, first, h, step, q, lines)?;
    }
    Some(next)
}

// An array, lib.rs 1090: E0123, E0124.
#[cycle(inference)]
fn array(
    side: &RightSide,
    at: usize,
    hint: Option<&Typ>,
    q: Spot,
    lines: &mut Lines,
) -> Option<Typed>
    requires { Given side.now.ctx side.now.records at × (kind_at side.now.records at ≡ ARRAY) }
    ensures { Inferring side.now.ctx side.now.records at (option_copied hint.entry) q lines.old result lines.new }
{
    let count = side.records.words[at];
    let element = element_hint(&side.ctx, hint);
    if count == 0 {
        let Some(e) = element else {
            return fail(codes::E0123, at, NONE, q, lines);
        };
        return Some(Typed {
            typ: e.array(0),
            next: at + 1,
        });
    }
    let h = element.as_ref();
    let first = infer(side, at + 1, h, q, lines)?;
    let next = items(side, first.next, count - 1, &first.typ, h, at, q, lines)?;
    Some(Typed {
        typ: first.typ.array(count as u32),
        next,
    })
}

// A field value at its record, lib.rs 1141, of a record whose fields are in the list at another place: E0126, E0127. The record behind it.
#[cycle(inference)]
fn value(side: &RightSide, at: usize, list: usize, step: usize, q: Spot, lines: &mut Lines) -> usize
    requires { GivenValue side.now.ctx side.now.records at list }
    ensures { (g : GivenValue side.now.ctx side.now.records at list) →
        DoneValue side.now.ctx side.now.records at list step g q lines.old result lines.new }
{
    let name = side.records.words[at];
    let first = at + 1;
    let Some(p) = find_port(&side.ctx.records, list, name) else {
        lines.put(q, codes::E0126, step as u64, name);
        return skip(&side.records, first);
    };
    let want = port_type(&side.ctx.records, p);
    let Some(a) = infer(side, first, Some(&want.typ), q, lines) else {
        return skip(&side.records, first);
    };
    unless_agrees(
        &side.ctx,
        &want.typ,
        &a.typ,
        codes::E0127,
        step,
        name,
        q,
        lines,
    );
    a.next
}

// The field values of a struct, and the names that they give.
#[cycle(inference)]
fn values(
    side: &RightSide,
    at: usize,
    list: usize,
    count: u64,
    step: usize,
    q: Spot,
    lines: &mut Lines,
) -> ValuesLeft
    requires { GivenValues side.now.ctx side.now.records at list count }
    ensures { (g : GivenValues side.now.ctx side.now.records at list count) →
        DoneValues side.now.ctx side.now.records at list count step g q lines.old result lines.new }
{
    let mut marks = NameSet::new();
    let mut next = at;
    for _ in 0..count {
        marks.insert(side.records.name(next));
        next = value(side, next, list, step, q, lines);
    }
    ValuesLeft { marks, next }
}

// A struct value, lib.rs 1134.
#[cycle(inference)]
fn build(side: &RightSide, at: usize, q: Spot, lines: &mut Lines) -> Option<Typed>
    requires { Given side.now.ctx side.now.records at × (kind_at side.now.records at ≡ STRUCT) }
    ensures { (h : Option Typ) → Inferring side.now.ctx side.now.records at h q lines.old result lines.new }
{
    let name = struct_name(&side.ctx, side.records.name(at));
    let count = side.records.words[at + 1];
    let fields = record_of(&side.ctx, name, at, q, lines)?;
    let v = values(side, at + 2, fields, count, at, q, lines);
    missing(&side.ctx.records, fields, &v.marks, at, q, lines);
    Some(Typed {
        typ: Typ::named(name),
        next: v.next,
    })
}

// The arrays of an iterator beside the inputs of its function, whose list is at a place, lib.rs 1284: E0143.
#[cycle(inference)]
fn arrays(
    side: &RightSide,
    at: usize,
    list: usize,
    count: u64,
    step: usize,
    q: Spot,
    lines: &mut Lines,
) -> Option<ArraysLeft>
    requires { GivenArrays side.now.ctx side.now.records at list count }
    ensures { (g : GivenArrays side.now.ctx side.now.records at list count) →
        DoneArrays side.now.ctx side.now.records at list count step g q lines.old result lines.new }
{
    let mut kept = Kept::new();
    let mut next = at;
    let mut inputs = ports_of(&side.ctx.records, list);
    for _ in 0..count {
        let a = infer(side, next, None, q, lines)?;
        next = a.next;
        let want = match inputs.next() {
            Some((_, port)) => Some(port_type(&side.ctx.records, port).typ),
            None => None,
        };
        kept = take_array(&side.ctx, kept, &a.typ, want, step, q, lines)?;
    }
    Some(ArraysLeft { kept, next })
}

// What an iterator of the function `name` has before its last tests, lib.rs 1233 to 1316: E0140 to E0144. `list` is the list of arrays.
#[cycle(inference)]
fn gather(
    side: &RightSide,
    list: usize,
    name: NameId,
    step: usize,
    q: Spot,
    lines: &mut Lines,
) -> Option<Gathered>
    requires { GivenGather side.now.ctx side.now.records list }
    ensures { (g : GivenGather side.now.ctx side.now.records list) →
        DoneGather side.now.ctx side.now.records list name.number step g q lines.old result lines.new }
{
    let c = iterated(&side.ctx, name, step, q, lines)?;
    let count = side.records.words[list];
    let a = arrays(side, list + 1, c.inputs, count, step, q, lines)?;
    if a.kept.even {
        return Some(Gathered {
            inputs: c.inputs,
            result: c.result,
            kept: a.kept,
            next: a.next,
        });
    }
    fail(codes::E0144, step, NONE, q, lines)
}

// A map whose arrays are in the list at another place, lib.rs 1318 to 1351. It does not type its seed, if it has one.
// Kept: `map` and `fold` are two functions, so that `gather` is called at two places and has a frame of its own, which is gone while a fold
// types its seed: the compiler inlines what is called at one place alone.
#[cycle(inference)]
fn map(side: &RightSide, at: usize, list: usize, q: Spot, lines: &mut Lines) -> Option<Typed>
    requires { Given side.now.ctx side.now.records at × MapBehind side.now.records at list }
    ensures { (h : Option Typ) → Inferring side.now.ctx side.now.records at h q lines.old result lines.new }
{
    let g = gather(side, list, side.records.name(at), at, q, lines)?;
    let next = g.next;
    let inputs = side.ctx.records.words[g.inputs];
    let count = side.records.words[list];
    let typ = map_rule(inputs, count, &g.kept, g.result, at, q, lines)?;
    Some(Typed { typ, next })
}

// A fold whose arrays are in the list at another place, lib.rs 1352 to 1417. It types its seed, if it has one, which stands at `seed`,
// behind them.
#[cycle(inference)]
fn fold(
    side: &RightSide,
    at: usize,
    list: usize,
    seed: Option<usize>,
    q: Spot,
    lines: &mut Lines,
) -> Option<Typed>
    requires { Given side.now.ctx side.now.records at × ListBehind Fold side.now.records at seed list }
    ensures { (h : Option Typ) → Inferring side.now.ctx side.now.records at h q lines.old result lines.new }
{
    let name = side.records.name(at);
    let g = gather(side, list, name, at, q, lines)?;
    let next = g.next;
    let f = fold_inputs(&side.ctx, g.inputs, &g.result, at, q, lines)?;
    let start = match seed {
        Some(p) => infer(side, p, Some(&f.acc), q, lines).map(|a| a.typ),
        None => None,
    };
    let typ = fold_end(&side.ctx, &f, start, &g.kept, g.result, at, q, lines)?;
    Some(Typed { typ, next })
}

// The expression at a place, under a hint: `infer_expr_type`, lib.rs 710.
#[cycle(inference)]
pub fn infer(
    side: &RightSide,
    at: usize,
    hint: Option<&Typ>,
    q: Spot,
    lines: &mut Lines,
) -> Option<Typed>
    requires { Given side.now.ctx side.now.records at }
    ensures { Inferring side.now.ctx side.now.records at (option_copied hint.entry) q lines.old result lines.new }
{
    match side.records.kinds[at] {
        ..=kinds::CHAR_LITERAL => literal(side, at, hint, q, lines),
        kinds::VARIABLE => variable(side, at, q, lines),
        kinds::NOT | kinds::MINUS => unary(side, at, hint, q, lines),
        kinds::IF => ite(side, at, hint, q, lines),
        kinds::PRE => infer(side, at + 1, hint, q, lines),
        kinds::ARROW => both(side, at + 1, at, codes::E0092, hint, q, lines),
        kinds::CALL => call(side, at, q, lines),
        kinds::FIELD => field(side, at, q, lines),
        kinds::INDEX => index(side, at, q, lines),
        kinds::TUPLE => tuple(side, at, q, lines),
        kinds::ARRAY => array(side, at, hint, q, lines),
        kinds::STRUCT => build(side, at, q, lines),
        kinds::CAST => cast(side, at, q, lines),
        kinds::WHEN_TRUE | kinds::WHEN_FALSE => when(side, at, hint, q, lines),
        kinds::MERGE => merge(side, at, hint, q, lines),
        kinds::MAP => map(side, at, at + 1, q, lines),
        kinds::MAP_FROM => map(side, at, skip(&side.records, at + 1), q, lines),
        kinds::FOLD => fold(side, at, at + 1, None, q, lines),
        kinds::FOLD_FROM => {
            let seed = at + 1;
            let list = skip(&side.records, seed);
            fold(side, at, list, Some(seed), q, lines)
        }
        _ => binary(side, at, hint, q, lines),
    }
}
