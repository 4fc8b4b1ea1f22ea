// The rules of inference, each as one small function: what `infer_expr_type`, lib.rs 710, does once the types of a construct's parts are
// known. The recursion stands in `infer`.
// A rule reads the whole project's records and the scope, six tables of 512 entries by name number. It writes its lines, and gives a type if
// there is one.
// The modules below hold the hints, the lists of ports, the values of structs and the iterators.
#![tactic(auto)]

pub mod hints;
pub mod iterators;
pub mod ports;
pub mod structs;
pub mod walk;

ghost use Rattle.std.specs.Prelude.{◌≡◌, [], ◌∷◌, ◌-◌, ◌<◌, max, if◌then◌else◌};
ghost use Rattle.std.proofs.Math.Option.{some};
ghost use Rattle.lustre.specs.Types.{within, is_bool, is_integer};
ghost use Rattle.lustre.specs.Expr.{UnaryOp, BinOp, op_class};
ghost use Rattle.lustre.specs.Grammar.{unary_kind, op_kind};
ghost use Rattle.lustre.specs.Line.{plain, named, require};
ghost use Rattle.lustre.specs.Infer.{meets as meets_class, fault as fault_of, operands as operands_of, agree_rule, unless_agrees, unary_of, var_rule, field_of, index_of, cast_of, clock, res, agrees};
ghost use Rattle.lines.specs.Lines.{Noted, Said};
ghost use Rattle.types.specs.Value.{asTy};
ghost use Rattle.rules.specs.World.{WorldOf};
ghost use Rattle.rules.specs.Post.{Ruled, LiteralRuled, Failed, passes};
ghost use Rattle.rules.specs.Classes.{class_as, between, one_of};

use crate::ports::find_port;
use lines::{Lines, Spot};
use lustre::{NONE, NameId, codes, kinds};
use types::Typ;
use types::context::{Context, Scope};
use types::records::read_type;

// Where the next operand and its port are.
#[derive(Clone, Copy)]
pub struct Seen {
    pub next: usize,
    pub port: usize,
}

// The classes of binary operators, in the order of their codes E0083 to E0087.
#[derive(Clone, Copy, PartialEq, Eq)]
pub enum Class {
    Logical,
    Equality,
    Ordering,
    Arithmetic,
    Bitwise,
}

impl Class {
    // The code where operands are not what the class asks.
    #[tactic(auto, unfolding(lustre::specs::Infer::fault))]
    fn fault(self) -> u64
        ensures { result ≡ fault_of (class_as self) }
    {
        match self {
            Class::Logical => codes::E0083,
            Class::Equality => codes::E0084,
            Class::Ordering => codes::E0085,
            Class::Arithmetic => codes::E0086,
            Class::Bitwise => codes::E0087,
        }
    }
}

// One line, and no value.
pub fn fail<T: Drop>(code: u64, step: usize, name: u64, q: Spot, lines: &mut Lines) -> Option<T>
    ensures { Failed q code step name lines.old result lines.new }
{
    lines.put(q, code, step as u64, name);
    None
}

// Whether a kind is from low to high.
fn is_between(kind: Option<u8>, low: u8, high: u8) -> bool
    ensures { result ≡ between low high kind }
{
    matches!(kind, Some(k) if low <= k && k <= high)
}

// Whether the type t is a basic type of the kinds from low to high once resolved.
#[tactic(auto, using(crate::proofs::BasicKinds::within_kind, crate::proofs::Laws::kind_resolved))]
fn resolves_within(ctx: &Context, t: &Typ, low: u8, high: u8) -> bool
    requires { high < 34 }
    ensures { (W : WorldOf ctx.now) → result ≡ within low high (res W.Γ (asTy W.text t.now)) }
{
    is_between(ctx.basic_kind(t), low, high)
}

// Whether the type t is Bool once resolved.
pub fn is_truth(ctx: &Context, t: &Typ) -> bool
    ensures { (W : WorldOf ctx.now) → result ≡ is_bool (res W.Γ (asTy W.text t.now)) }
{
    resolves_within(ctx, t, kinds::BOOL, kinds::BOOL)
}

// A literal whose type is of a kind, lib.rs 721. Request 2.10: E0095 where it has none.
pub fn literal_rule(kind: Option<u8>, at: usize, q: Spot, lines: &mut Lines) -> Option<Typ>
    ensures { LiteralRuled q at kind lines.old result lines.new }
{
    match kind {
        Some(k) => Some(Typ::basic(k)),
        None => fail(codes::E0095, at, NONE, q, lines),
    }
}

// A variable, lib.rs 754: among ports and locals, then constants, then variants; else E0080.
// Kept: that there is a world is asked, here and by the four rules that ask for it, and is no ghost fact of the context: a world holds texts
// and meanings, where a ghost fact has one proof alone, and a truncated one would not give `find_port` its list.
pub fn var_rule(ctx: &Context, name: NameId, at: usize, q: Spot, lines: &mut Lines) -> Option<Typ>
    requires { WorldOf ctx.now }
    ensures { Ruled ctx.now q (λ W. var_rule W.Γ at (W.text name.number)) 67 lines.old result lines.new }
{
    if let Some(port) = ctx.scope.declared(Scope::PORTS, name) {
        return Some(read_type(&ctx.records, port + 1).typ);
    }
    if let Some(constant) = ctx.scope.declared(Scope::CONSTANTS, name) {
        return Some(read_type(&ctx.records, constant + 1).typ);
    }
    if let Some(variant) = ctx.scope.declared(Scope::VARIANTS, name) {
        return Some(Typ::named(ctx.records.name(variant)));
    }
    fail(codes::E0080, at, name.number, q, lines)
}

// `not` or minus, lib.rs 779: E0081, E0082.
pub fn unary_rule(
    ctx: &Context,
    k: u8,
    t: Typ,
    at: usize,
    q: Spot,
    lines: &mut Lines,
) -> Option<Typ>
    ensures { (o : UnaryOp) → unary_kind o ≡ k → Ruled ctx.now q (λ W. unary_of W.Γ at o (asTy W.text t)) t.levels lines.old result lines.new }
{
    if k == kinds::NOT {
        if is_truth(ctx, &t) {
            return Some(Typ::basic(kinds::BOOL));
        }
        return fail(codes::E0081, at, NONE, q, lines);
    }
    if resolves_within(ctx, &t, kinds::INT8, kinds::FLOAT64) {
        return Some(t);
    }
    fail(codes::E0082, at, NONE, q, lines)
}

// The class of an operator, by the operator's kind.
pub fn class_of(k: u8) -> Class
    ensures { (o : BinOp) → op_kind o ≡ k → class_as result ≡ op_class o }
{
    match k {
        ..=kinds::IMPLIES => Class::Logical,
        ..=kinds::NOT_EQUAL => Class::Equality,
        ..=kinds::GREATER_EQUAL => Class::Ordering,
        ..=kinds::MODULO => Class::Arithmetic,
        _ => Class::Bitwise,
    }
}

// Whether the types l and r are one basic type of the kinds from low to high once resolved.
fn one_within(ctx: &Context, l: &Typ, r: &Typ, low: u8, high: u8) -> bool
    requires { high < 34 }
    ensures { (W : WorldOf ctx.now) → result ≡ one_of low high (res W.Γ (asTy W.text l.now)) (res W.Γ (asTy W.text r.now)) }
{
    let kind = ctx.basic_kind(l);
    kind == ctx.basic_kind(r) && is_between(kind, low, high)
}

// Whether the types l and r of operands are what their class asks once resolved, lib.rs 823 to 897.
fn meets(ctx: &Context, class: Class, l: &Typ, r: &Typ) -> bool
    ensures { (W : WorldOf ctx.now) → result ≡ meets_class (class_as class) (res W.Γ (asTy W.text l.now)) (res W.Γ (asTy W.text r.now)) }
{
    match class {
        Class::Logical => one_within(ctx, l, r, kinds::BOOL, kinds::BOOL),
        Class::Equality => ctx.compatible(l, r),
        Class::Ordering | Class::Arithmetic => one_within(ctx, l, r, kinds::INT8, kinds::FLOAT64),
        Class::Bitwise => one_within(ctx, l, r, kinds::INT8, kinds::UINT64),
    }
}

// A binary operator on operands of types l and r, lib.rs 805: E0083 to E0087.
pub fn operands(
    ctx: &Context,
    class: Class,
    l: Typ,
    r: &Typ,
    at: usize,
    q: Spot,
    lines: &mut Lines,
) -> Option<Typ>
    ensures { Ruled ctx.now q (λ W. operands_of W.Γ at (class_as class) (asTy W.text l) (asTy W.text r.now)) l.levels lines.old result lines.new }
{
    if !meets(ctx, class, &l, r) {
        return fail(class.fault(), at, NONE, q, lines);
    }
    match class {
        Class::Logical | Class::Equality | Class::Ordering => Some(Typ::basic(kinds::BOOL)),
        Class::Arithmetic | Class::Bitwise => Some(l),
    }
}

// The types s and t of two parts that must agree: the branches of `if` and `merge`, the sides of `->`; else the line `code`.
pub fn agree_rule(
    ctx: &Context,
    code: u64,
    s: Typ,
    t: &Typ,
    at: usize,
    q: Spot,
    lines: &mut Lines,
) -> Option<Typ>
    ensures { Ruled ctx.now q (λ W. agree_rule W.Γ at code (asTy W.text s) (asTy W.text t.now)) s.levels lines.old result lines.new }
{
    if ctx.compatible(&s, t) {
        return Some(s);
    }
    fail(code, at, NONE, q, lines)
}

// A line with a name where the type t is not the one wanted: E0103, E0127.
pub fn unless_agrees(
    ctx: &Context,
    want: &Typ,
    t: &Typ,
    code: u64,
    step: usize,
    name: u64,
    q: Spot,
    lines: &mut Lines,
)
    ensures { (W : WorldOf ctx.now) →
        Noted W.number q (unless_agrees W.Γ (asTy W.text want.now) (some (asTy W.text t.now)) (named step code (W.text name))) lines.old lines.new }
{
    if !ctx.compatible(want, t) {
        lines.put(q, code, step as u64, name);
    }
}

// The field `name` of a value of type t, lib.rs 1007: E0120 to E0122.
pub fn field_rule(
    ctx: &Context,
    name: u64,
    t: &Typ,
    at: usize,
    q: Spot,
    lines: &mut Lines,
) -> Option<Typ>
    requires { WorldOf ctx.now }
    ensures { Ruled ctx.now q (λ W. field_of W.Γ at (W.text name) (res W.Γ (asTy W.text t.now))) 67 lines.old result lines.new }
{
    let s = ctx.resolve(t);
    if s.levels != 0 || s.base < kinds::NAMED {
        return fail(codes::E0122, at, name, q, lines);
    }
    if s.base > kinds::NAMED {
        return fail(codes::E0121, at, name, q, lines);
    }
    let shape = NameId { number: s.name };
    let Some(record) = ctx.scope.declared(Scope::RECORDS, shape) else {
        return fail(codes::E0121, at, name, q, lines);
    };
    let Some(port) = find_port(&ctx.records, record + 1, name) else {
        return fail(codes::E0120, at, name, q, lines);
    };
    Some(read_type(&ctx.records, port + 1).typ)
}

// A line where the type i of an index is no integer type once resolved: E0111.
fn index_note(ctx: &Context, i: &Typ, at: usize, q: Spot, lines: &mut Lines)
    ensures { (W : WorldOf ctx.now) →
        Noted W.number q (if◌then◌else◌ (is_integer (res W.Γ (asTy W.text i.now))) [] (plain at 111 ∷ [])) lines.old lines.new }
{
    if !resolves_within(ctx, i, kinds::INT8, kinds::UINT64) {
        lines.put(q, codes::E0111, at as u64, NONE);
    }
}

// A value of type b at an index of type i, lib.rs 1052: E0110, E0111.
pub fn index_rule(
    ctx: &Context,
    b: &Typ,
    i: &Typ,
    at: usize,
    q: Spot,
    lines: &mut Lines,
) -> Option<Typ>
    ensures { Ruled ctx.now q (λ W. index_of W.Γ at (asTy W.text b.now) (asTy W.text i.now)) (max 63 (b.now.levels - 1)) lines.old result lines.new }
{
    index_note(ctx, i, at, q, lines);
    let s = ctx.resolve(b);
    if s.levels == 0 {
        return fail(codes::E0110, at, NONE, q, lines);
    }
    Some(s.element())
}

// A value of type a cast to the type `to`, which is not resolved, lib.rs 730: E0093, E0094.
pub fn cast_rule(
    ctx: &Context,
    to: Typ,
    a: &Typ,
    at: usize,
    q: Spot,
    lines: &mut Lines,
) -> Option<Typ>
    ensures { Ruled ctx.now q (λ W. cast_of W.Γ at (asTy W.text to) (asTy W.text a.now)) to.levels lines.old result lines.new }
{
    if !resolves_within(ctx, a, kinds::INT8, kinds::FLOAT64) {
        return fail(codes::E0093, at, NONE, q, lines);
    }
    if !to.is_numeric() {
        return fail(codes::E0094, at, NONE, q, lines);
    }
    Some(to)
}

// A clock, `check_clock_var_is_bool`, lib.rs 1449, among ports and locals alone: E0080, E0130.
pub fn clock_rule(ctx: &Context, name: NameId, at: usize, q: Spot, lines: &mut Lines)
    requires { WorldOf ctx.now }
    ensures { (W : WorldOf ctx.now) → Noted W.number q (clock W.Γ at (W.text name.number)) lines.old lines.new }
{
    let Some(port) = ctx.scope.declared(Scope::PORTS, name) else {
        lines.put(q, codes::E0080, at as u64, name.number);
        return;
    };
    let t = read_type(&ctx.records, port + 1).typ;
    if !is_truth(ctx, &t) {
        lines.put(q, codes::E0130, at as u64, name.number);
    }
}

// Whether an item of type t fits an array whose first item has type `first`, lib.rs 1114: E0124.
pub fn item_rule(
    ctx: &Context,
    first: &Typ,
    t: &Typ,
    step: usize,
    q: Spot,
    lines: &mut Lines,
) -> bool
    ensures { (W : WorldOf ctx.now) →
        Said W.number q (require (agrees W.Γ (asTy W.text first.now) (asTy W.text t.now)) (plain step 124)) (passes result) lines.old lines.new }
{
    let fits = ctx.compatible(first, t);
    if !fits {
        lines.put(q, codes::E0124, step as u64, NONE);
    }
    fits
}
