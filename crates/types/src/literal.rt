// The types of literals: `fits_in_integer`, lib.rs 696, `integer_literal_type`, lib.rs 1477, and lib.rs 721 to 729. A literal's type is a
// basic one, so it is given by its kind.
ghost use Rattle.std.specs.Prelude.{◌≡◌, option_copied};
ghost use Rattle.std.proofs.Math.Option.{some};
ghost use Rattle.lustre.specs.Types.{basic};
ghost use Rattle.lustre.specs.Expr.{Literal};
ghost use Rattle.lustre.specs.Grammar.{literal_kind};
ghost use Rattle.lustre.specs.Literal.{fits, int32_type, integer_type, float_type, literal_type};
ghost use Rattle.types.specs.Number.{number_of, KindIs, HintKind, Hinted};

use crate::Typ;
use crate::context::Context;
use lustre::kinds;

// A word's number in two's complement, under a minus if negated: 128 bits hold the minus of −2^63 too.
// Kept: a function and no `From`, since a word and a sign are no type of their own.
fn number(word: u64, negated: bool) -> i128
    ensures { result ≡ number_of negated word }
{
    let v = i128::from(word.cast_signed());
    if negated { -v } else { v }
}

// Whether a word's number, under a minus if negated, fits the type of base kind k.
fn fits_in_integer(word: u64, negated: bool, k: u8) -> bool
    ensures { result ≡ fits (number_of negated word) (basic k) }
{
    let v = number(word, negated);
    match k {
        kinds::INT8 => i8::try_from(v).is_ok(),
        kinds::INT16 => i16::try_from(v).is_ok(),
        kinds::INT32 => i32::try_from(v).is_ok(),
        kinds::INT64 => i64::try_from(v).is_ok(),
        kinds::UINT8 => u8::try_from(v).is_ok(),
        kinds::UINT16 => u16::try_from(v).is_ok(),
        kinds::UINT32 => u32::try_from(v).is_ok(),
        kinds::UINT64 => u64::try_from(v).is_ok(),
        _ => false,
    }
}

// Int32 if a word's number, under a minus if negated, fits it, else none: request 2.10, where the Rust has Int32 for every number.
#[tactic(auto, using(crate::proofs::Literals::in_int32, crate::proofs::Literals::past_int32))]
fn int32_type(word: u64, negated: bool) -> Option<u8>
    ensures { KindIs (int32_type (number_of negated word)) result }
{
    if fits_in_integer(word, negated, kinds::INT32) {
        Some(kinds::INT32)
    } else {
        None
    }
}

impl<'a> Context<'a> {
    // The kind of the basic type that a hint is once resolved.
    #[tactic(auto, using(crate::proofs::Literals::no_hint, crate::proofs::Literals::some_hint))]
    fn hinted_kind(&self, hint: Option<&Typ>) -> Option<u8>
        ensures { HintKind self.now.records.kinds.now self.now.records.words.now self.now.scope.now.entries (option_copied hint.entry) result }
    {
        self.basic_kind(hint?)
    }

    // The type of an integer literal, under a minus if negated: the resolved hint if the number fits it, else Int32 if it fits that.
    pub fn integer_literal_type(&self, word: u64, negated: bool, hint: Option<&Typ>) -> Option<u8>
        ensures { Hinted self.now.records.kinds.now self.now.records.words.now self.now.scope.now.entries (option_copied hint.entry)
            (λ al. integer_type al (number_of negated word)) result }
    {
        match self.hinted_kind(hint) {
            Some(k) if fits_in_integer(word, negated, k) => Some(k),
            _ => int32_type(word, negated),
        }
    }

    // The type of a float literal: Float32 if that is the resolved hint, else Float64.
    #[tactic(auto, using(crate::proofs::Literals::float_32, crate::proofs::Literals::float_64))]
    fn float_literal_type(&self, hint: Option<&Typ>) -> Option<u8>
        ensures { Hinted self.now.records.kinds.now self.now.records.words.now self.now.scope.now.entries (option_copied hint.entry)
            (λ al h. some (float_type al h)) result }
    {
        match self.hinted_kind(hint) {
            Some(kinds::FLOAT32) => Some(kinds::FLOAT32),
            _ => Some(kinds::FLOAT64),
        }
    }

    // The type of the literal of record kind k, 40 to 43, with its word.
    pub fn literal_type(&self, k: u8, word: u64, hint: Option<&Typ>) -> Option<u8>
        ensures { (l : Literal) → literal_kind l ≡ k →
            Hinted self.now.records.kinds.now self.now.records.words.now self.now.scope.now.entries (option_copied hint.entry) (λ al. literal_type al l word) result }
    {
        match k {
            kinds::BOOL_LITERAL => Some(kinds::BOOL),
            kinds::INT_LITERAL => self.integer_literal_type(word, false, hint),
            kinds::FLOAT_LITERAL => self.float_literal_type(hint),
            _ => Some(kinds::CHAR),
        }
    }
}
