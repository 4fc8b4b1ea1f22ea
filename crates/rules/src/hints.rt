// Hints: the type that a construct hands down to a part, if it has one for it.
ghost use Rattle.std.specs.Prelude.{◌-◌, max, option_copied};
ghost use Rattle.lustre.specs.Infer.{sub_hint, element_hint};
ghost use Rattle.types.specs.Value.{Naming};
ghost use Rattle.types.specs.Number.{asHint};
ghost use Rattle.rules.specs.World.{WorldOf};
ghost use Rattle.rules.specs.Post.{HintIs, hint_levels};
ghost use Rattle.rules.specs.Classes.{class_as};

use crate::Class;
use types::Typ;
use types::context::Context;

// What an operator hands its left operand, `sub_hint`, lib.rs 809.
#[tactic(auto, unfolding(lustre::specs::Infer::sub_hint))]
pub fn sub_hint<'a>(class: Class, hint: Option<&'a Typ>) -> Option<&'a Typ>
    ensures { (ρ : Naming) → let h = option_copied hint.entry in
        HintIs ρ (sub_hint (class_as class) (asHint ρ h)) (hint_levels h) (option_copied result) }
{
    match class {
        Class::Logical | Class::Equality | Class::Ordering => None,
        Class::Arithmetic | Class::Bitwise => hint,
    }
}

// What an array hands its items, lib.rs 1092: the element type of the resolved hint.
pub fn element_hint(ctx: &Context, hint: Option<&Typ>) -> Option<Typ>
    ensures { (W : WorldOf ctx.now) → let h = option_copied hint.entry in
        HintIs W.text (element_hint W.Γ (asHint W.text h)) (max 63 (hint_levels h - 1)) result }
{
    let t = ctx.resolve(hint?);
    if t.levels == 0 {
        return None;
    }
    Some(t.element())
}
