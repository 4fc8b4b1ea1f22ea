// One constant, `check_constants`, lib.rs 262 to 325: E0003 for a name declared before, else E0004, the lines of inference as in a function,
// and E0005. E0070 and E0146 are not asked of a constant's value.
#![tactic(auto)]

ghost use Rattle.std.specs.Prelude.{ℕ, ◌≡◌, true, List, [], ◌∷◌, if◌then◌else◌};
ghost use Rattle.std.proofs.Math.Option.{some};
ghost use Rattle.lustre.specs.Name.{Name, ◌among◌};
ghost use Rattle.lustre.specs.Expr.{contains_temporal};
ghost use Rattle.lustre.specs.Project.{skeleton};
ghost use Rattle.lustre.specs.Line.{about, bare};
ghost use Rattle.lustre.specs.Resolve.{context};
ghost use Rattle.lustre.specs.Report.{value_notes, constant_notes};
ghost use Rattle.lines.specs.Lines.{Noted};
ghost use Rattle.types.specs.Value.{asTy};
ghost use Rattle.standing.specs.Owed.{There};
ghost use Rattle.scope.specs.Sets.{Holds};
ghost use Rattle.constants.specs.Constants.{ConstantOf};

use body::contains_temporal;
use infer::{RightSide, infer};
use lines::{Lines, Spot};
use loops::NameSet;
use lustre::{NONE, Records, codes};
use standing::skip;
use types::Typ;
use types::context::Context;
use types::records::read_type;

// The line of the value at a place that has a temporal operator: E0004.
// Kept: what stands in the records is asked, here and below, and is no ghost fact: it is data, and a ghost fact has one proof alone.
fn check_static(records: &Records, start: usize, q: Spot, lines: &mut Lines)
    requires { There records.now.kinds.now records.now.words.now start }
    ensures { (num : Name → ℕ) (g : There records.now.kinds.now records.now.words.now start) →
        Noted num q (if contains_temporal g.e then bare 4 ∷ [] else []) lines.old lines.new }
{
    let next = skip(records, start);
    if contains_temporal(&records.kinds[start..next]) {
        lines.put(q, codes::E0004, NONE, NONE);
    }
}

// The line of a value whose type t is not the declared one: E0005.
fn check_fits(ctx: &Context, at: usize, want: &Typ, t: &Typ, q: Spot, lines: &mut Lines)
    requires { ConstantOf ctx.now at }
    ensures { (g : ConstantOf ctx.now at) → asTy g.model.text want.now ≡ g.c.type →
        Noted g.model.number q (value_notes (context (skeleton g.model.P)) g.c (some (asTy g.model.text t.now))) lines.old lines.new }
{
    if !ctx.compatible(want, t) {
        lines.put(q, codes::E0005, NONE, ctx.records.words[at]);
    }
}

// The lines of the value of the constant at a record: E0004, those of inference, E0005.
fn check_value(ctx: &Context, at: usize, q: Spot, lines: &mut Lines)
    requires constant { ConstantOf ctx.now at }
    requires function { q.function ≡ true }
    ensures { (g : ConstantOf ctx.now at) →
        Noted g.model.number q (constant_notes (context (skeleton g.model.P)) g.c) lines.old lines.new }
{
    let declared = read_type(&ctx.records, at + 1);
    let start = declared.next;
    check_static(&ctx.records, start, q, lines);
    let side = RightSide {
        ctx: *ctx,
        records: Records {
            kinds: &ctx.records.kinds[start..],
            words: &ctx.records.words[start..],
        },
    };
    let want = declared.typ;
    if let Some(value) = infer(&side, 0, Some(&want), q, lines) {
        check_fits(ctx, at, &want, &value.typ, q, lines);
    }
}

// The lines of the constant at a record. `seen` has the names of the constants before it, and then its own.
pub fn check_constant(ctx: &Context, seen: &mut NameSet, at: usize, q: Spot, lines: &mut Lines)
    requires constant { ConstantOf ctx.now at }
    requires function { q.function ≡ true }
    ensures { (g : ConstantOf ctx.now at) (xs : List Name) → Holds g.model.text xs seen.old.bits →
        Noted g.model.number q (if g.c.name among xs then about 3 g.c.name ∷ [] else constant_notes (context (skeleton g.model.P)) g.c) lines.old lines.new
        × Holds g.model.text (g.c.name ∷ xs) seen.new.bits }
{
    let name = ctx.records.name(at);
    if seen.insert(name) {
        check_value(ctx, at, q, lines);
    } else {
        lines.put(q, codes::E0003, NONE, name.number);
    }
}
