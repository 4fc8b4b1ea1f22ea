// Iterators, `infer_iterator_type`, lib.rs 1233. An iterator types its arrays once, in order, and keeps of them what its later tests ask.
ghost use Rattle.std.specs.Prelude.{◌≡◌, List, [], ◌∷◌, ◌++◌, ℕ, ◌+◌, ◌<◌, length, drop};
ghost use Rattle.std.proofs.Math.Option.{Option as MathOption};
ghost use Rattle.lustre.specs.Name.{Name};
ghost use Rattle.lustre.specs.Types.{Ty, Array as ArrayTy};
ghost use Rattle.lustre.specs.Expr.{Map};
ghost use Rattle.lustre.specs.Project.{Port};
ghost use Rattle.lustre.specs.Resolve.{Scope as Meanings};
ghost use Rattle.lustre.specs.Infer.{Typing, first_length, iterate_as};
ghost use Rattle.types.specs.Value.{Naming, asTy};
ghost use Rattle.types.specs.Number.{asHint};
ghost use Rattle.rules.specs.World.{WorldOf, Listed, PortsOf, source_of};
ghost use Rattle.rules.specs.Post.{Concludes};
ghost use Rattle.rules.specs.Flags.{First, Flags, Beside, type_fits};
ghost use Rattle.rules.specs.Iterators.{Iterated, Taking, FoldStarts, element_end, fold_end};

use crate::fail;
use crate::ports::ports_end;
use lines::{Lines, Spot};
use lustre::{NONE, NameId, codes, kinds};
use types::Typ;
use types::context::{Context, Scope};
use types::records::read_type;

// The length and the element type of an array.
#[derive(Clone, Copy)]
pub struct Array {
    pub len: u32,
    pub element: Typ,
}

// What an iterator keeps of its arrays: the first, whether their lengths are equal, and whether their elements are of the types of the inputs
// beside them.
#[derive(Clone, Copy)]
pub struct Kept {
    pub first: Option<Array>,
    pub even: bool,
    pub agree: bool,
}

// What an iterator's arrays leave: what is kept of them, and where the next record is.
#[derive(Clone, Copy)]
pub struct ArraysLeft {
    pub kept: Kept,
    pub next: usize,
}

// The function that is iterated: the list of its inputs and the type of its output.
#[derive(Clone, Copy)]
pub struct Callee {
    pub inputs: usize,
    pub result: Typ,
}

// The accumulator's and the element's type of a fold's function.
#[derive(Clone, Copy)]
pub struct FoldInputs {
    pub acc: Typ,
    pub elem: Typ,
}

// The function that is iterated, lib.rs 1233 to 1280: E0140 to E0142.
pub fn iterated(
    ctx: &Context,
    name: NameId,
    at: usize,
    q: Spot,
    lines: &mut Lines,
) -> Option<Callee>
    requires { WorldOf ctx.now }
    ensures { (W : WorldOf ctx.now) → Iterated W at name.number q lines.old result lines.new }
{
    let Some(node) = ctx.scope.declared(Scope::NODES, name) else {
        return fail(codes::E0140, at, name.number, q, lines);
    };
    if ctx.records.kinds[node] != kinds::FUNCTION {
        return fail(codes::E0141, at, name.number, q, lines);
    }
    let inputs = node + 1;
    let outputs = ports_end(&ctx.records, inputs);
    if ctx.records.words[outputs] != 1 {
        return fail(codes::E0142, at, name.number, q, lines);
    }
    let result = read_type(&ctx.records, outputs + 2).typ;
    Some(Callee { inputs, result })
}

impl Kept {
    // No array yet.
    #[tactic(auto, using(crate::proofs::IteratorLaws::none_agree), unfolding(lustre::specs::Infer::same_lengths))]
    pub fn new() -> Kept
        ensures { (Γ : Meanings) (ρ : Naming) (ps : List Port) → Flags Γ ρ [] ps result }
    {
        Kept {
            first: None,
            even: true,
            agree: true,
        }
    }

    // The length of the first array, 0 without one.
    fn len(&self) -> u32
        ensures { (ρ : Naming) (ds : List (ℕ × Ty)) → First ρ ds self.now.first → result ≡ first_length ds }
    {
        self.first.map_or(0, |a| a.len)
    }
}

// Whether the type t agrees with another, if there is one.
// Kept: a match in the place of is_none_or, whose closure would need clauses of its own for the call in it.
fn fits(ctx: &Context, t: &Typ, other: Option<Typ>) -> bool
    ensures { (W : WorldOf ctx.now) → result ≡ type_fits W.Γ W.text (asTy W.text t.now) other }
{
    match other {
        Some(o) => ctx.compatible(t, &o),
        None => true,
    }
}

// One array more, of the resolved array type t, beside an input or none.
fn took(ctx: &Context, kept: Kept, t: &Typ, want: Option<Typ>) -> Kept
    requires { 0 < t.now.levels }
    ensures { (W : WorldOf ctx.now) (ds : List (ℕ × Ty)) (ps : List Port) → Flags W.Γ W.text ds ps kept → Beside W.text (drop (length ds) ps) want →
        (x : ℕ × Ty) × (asTy W.text t.now ≡ ArrayTy x.0 x.1) × Flags W.Γ W.text (ds ++ (x ∷ [])) ps result }
{
    let array = Array {
        len: t.outer_length(),
        element: t.element(),
    };
    let first = kept.first.unwrap_or(array);
    Kept {
        first: Some(first),
        even: kept.even && array.len == first.len,
        agree: kept.agree && fits(ctx, &array.element, want),
    }
}

// One operand more, of type u, beside an input or none, lib.rs 1284: E0143.
pub fn take_array(
    ctx: &Context,
    kept: Kept,
    u: &Typ,
    want: Option<Typ>,
    step: usize,
    q: Spot,
    lines: &mut Lines,
) -> Option<Kept>
    ensures { (W : WorldOf ctx.now) (ds : List (ℕ × Ty)) (ps : List Port) → Flags W.Γ W.text ds ps kept → Beside W.text (drop (length ds) ps) want →
        Taking W step (asTy W.text u.now) ds ps q lines.old result lines.new }
{
    let t = ctx.resolve(u);
    if t.levels == 0 {
        return fail(codes::E0143, step, NONE, q, lines);
    }
    Some(took(ctx, kept, &t, want))
}

// A map over so many arrays of a function of so many inputs, lib.rs 1318: E0145.
pub fn map_rule(
    inputs: u64,
    arrays: u64,
    kept: &Kept,
    res: Typ,
    at: usize,
    q: Spot,
    lines: &mut Lines,
) -> Option<Typ>
    requires { res.levels < 127 }
    ensures { (num : Name → ℕ) (ρ : Naming) (Γ : Meanings) (ds : List (ℕ × Ty)) (ps : List Port) (seed : MathOption Typing) →
        Flags Γ ρ ds ps kept.now → length ps ≡ inputs → length ds ≡ arrays →
        Concludes num ρ q (iterate_as Γ Map at ps seed ds (asTy ρ res)) (res.levels + 1) lines.old result lines.new }
{
    if inputs != arrays || !kept.agree {
        return fail(codes::E0145, at, NONE, q, lines);
    }
    Some(res.array(kept.len()))
}

// The inputs of a fold's function, in the list at a place, and its accumulator beside its output, lib.rs 1352: E0145.
pub fn fold_inputs(
    ctx: &Context,
    list: usize,
    res: &Typ,
    at: usize,
    q: Spot,
    lines: &mut Lines,
) -> Option<FoldInputs>
    requires { PortsOf ctx.now.records list }
    ensures { (W : WorldOf ctx.now) (ps : List Port) → Listed (source_of ctx.now.records W.text) ps list →
        FoldStarts W at ps (asTy W.text res.now) q lines.old result lines.new }
{
    if ctx.records.words[list] != 2 {
        return fail(codes::E0145, at, NONE, q, lines);
    }
    let a = read_type(&ctx.records, list + 2);
    let acc = a.typ;
    let elem = read_type(&ctx.records, a.next + 1).typ;
    if !ctx.compatible(&acc, res) {
        return fail(codes::E0145, at, NONE, q, lines);
    }
    Some(FoldInputs { acc, elem })
}

// A fold's first array beside the type of its element, lib.rs 1399: E0145.
fn element_rule(
    ctx: &Context,
    elem: &Typ,
    kept: &Kept,
    res: Typ,
    at: usize,
    q: Spot,
    lines: &mut Lines,
) -> Option<Typ>
    ensures { (W : WorldOf ctx.now) (ds : List (ℕ × Ty)) (ps : List Port) → Flags W.Γ W.text ds ps kept.now →
        Concludes W.number W.text q (element_end W.Γ at (asTy W.text elem.now) ds (asTy W.text res)) res.levels lines.old result lines.new }
{
    if !fits(ctx, elem, kept.first.map(|a| a.element)) {
        return fail(codes::E0145, at, NONE, q, lines);
    }
    Some(res)
}

// A fold whose seed has a type or none, lib.rs 1380 to 1410: E0145.
pub fn fold_end(
    ctx: &Context,
    inputs: &FoldInputs,
    seed: Option<Typ>,
    kept: &Kept,
    res: Typ,
    at: usize,
    q: Spot,
    lines: &mut Lines,
) -> Option<Typ>
    ensures { (W : WorldOf ctx.now) (ds : List (ℕ × Ty)) (ps : List Port) → Flags W.Γ W.text ds ps kept.now →
        Concludes W.number W.text q (fold_end W.Γ at (asTy W.text inputs.now.acc) (asHint W.text seed) (asTy W.text inputs.now.elem) ds (asTy W.text res))
        res.levels lines.old result lines.new }
{
    if !fits(ctx, &inputs.acc, seed) {
        return fail(codes::E0145, at, NONE, q, lines);
    }
    element_rule(ctx, &inputs.elem, kept, res, at, q, lines)
}
