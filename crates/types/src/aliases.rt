// Types without aliases: `TypeContext::resolve`, lib.rs 93 to 123, and `types_compatible`, lib.rs 692.
// Arrays and aliases share one depth of 64; an alias that leads to itself runs past it, so no set of the aliases entered is kept.
ghost use Rattle.std.specs.Prelude.{◌≡◌, ◌≢◌, MatchOption};
ghost use Rattle.types.specs.Value.{SameBasic};
ghost use Rattle.types.specs.Scope.{slot, Tries, Resolves, Follows, KindOf, Compares, NameResolves};

use crate::Typ;
use crate::context::Context;
use crate::records::{last_of, read_type};
use lustre::{NAMES, kinds};

// The last depth at which a type is looked at, the whole type's being 0.
const DEEPEST: usize = 64;

// What a name stands for once its aliases are followed: so many lengths around a base.
#[derive(Drop)]
pub struct Followed {
    pub base: u8,
    pub name: u64,
    pub levels: usize,
}

impl<'a> Context<'a> {
    // The place of the type that a name stands for, if it is an alias.
    #[tactic(auto, unfolding(crate::specs::Scope::slot))]
    fn alias_at(&self, n: u64) -> Option<usize>
        ensures { MatchOption result (slot self.now.scope.now.entries n ≡ 0) (λ at. (at ≡ slot self.now.scope.now.entries n) × (at ≢ 0)) }
    {
        if n >= NAMES as u64 {
            return None;
        }
        match self.scope.entries[n as usize] {
            0 => None,
            at => Some(at as usize),
        }
    }

    // The type t without aliases, if it has one: what the aliases stand for goes inside t's lengths, alias by alias.
    pub fn try_resolve(&self, t: &Typ) -> Option<Typ>
        ensures { Tries self.now.records.kinds.now self.now.records.words.now self.now.scope.now.entries t.now result }
    {
        let mut depth = t.levels;
        if depth > DEEPEST {
            return None;
        }
        let mut u = *t;
        // Kept: an alias leads to the next, so that no number of turns is known before it.
        while u.base == kinds::NAMED {
            let Some(at) = self.alias_at(u.name) else {
                break;
            };
            let mut inner = read_type(&self.records, at).typ;
            depth += 1 + inner.levels;
            if depth > DEEPEST {
                return None;
            }
            inner.wrap(&u);
            u = inner;
        }
        Some(u)
    }

    // The type t without aliases, or t itself where it does not resolve.
    pub fn resolve(&self, t: &Typ) -> Typ
        ensures { Resolves self.now.records.kinds.now self.now.records.words.now self.now.scope.now.entries t.now result }
    {
        if t.base != kinds::NAMED || self.alias_at(t.name).is_none() {
            return *t;
        }
        // Kept: a match, since `unwrap_or` takes both types by value.
        match self.try_resolve(t) {
            Some(u) => u,
            None => *t,
        }
    }

    // What the name n stands for, alias by alias as in `try_resolve`, the lengths only counted.
    fn follow(&self, n: u64) -> Option<Followed>
        ensures { Follows self.now.records.kinds.now self.now.records.words.now self.now.scope.now.entries n result }
    {
        let mut base = kinds::NAMED;
        let mut name = n;
        let mut levels = 0;
        let mut depth = 0;
        // Kept: an alias leads to the next, so that no number of turns is known before it.
        while base == kinds::NAMED {
            let Some(at) = self.alias_at(name) else {
                break;
            };
            let last = last_of(&self.records, at);
            let inner = last - at;
            depth += 1 + inner;
            if depth > DEEPEST {
                return None;
            }
            levels += inner;
            base = self.records.kinds[last];
            name = self.records.words[last];
        }
        Some(Followed { base, name, levels })
    }

    // The kind of the basic type that t is once resolved. The lengths are not read.
    #[tactic(auto, using(crate::proofs::Follows::kinds))]
    pub fn basic_kind(&self, t: &Typ) -> Option<u8>
        ensures { KindOf self.now.records.kinds.now self.now.records.words.now self.now.scope.now.entries t.now result }
    {
        if t.levels != 0 {
            return None;
        }
        if t.base != kinds::NAMED {
            return Some(t.base);
        }
        let f = self.follow(t.name)?;
        if f.levels == 0 && f.base != kinds::NAMED {
            Some(f.base)
        } else {
            None
        }
    }

    // Whether a and b are one type once resolved. That of two basic types, the most frequent, is told without a copy of either, and where
    // they are one type as they stand nothing needs to be resolved.
    pub fn compatible(&self, a: &Typ, b: &Typ) -> bool
        ensures { Compares self.now.records.kinds.now self.now.records.words.now self.now.scope.now.entries a.now b.now result }
    {
        same_basic(a, b) || a.same(b) || self.same_resolved(a, b)
    }

    // Whether a and b are one type once resolved. It stands apart, since a call that does not come here then makes no room for two types.
    fn same_resolved(&self, a: &Typ, b: &Typ) -> bool
        ensures { Compares self.now.records.kinds.now self.now.records.words.now self.now.scope.now.entries a.now b.now result }
    {
        self.resolve(a).same(&self.resolve(b))
    }

    // Whether the type of name number n resolves: what E0008 asks of an alias.
    #[tactic(auto, using(crate::proofs::Follows::name_resolves))]
    pub fn resolves(&self, n: u64) -> bool
        ensures { NameResolves self.now.records.kinds.now self.now.records.words.now self.now.scope.now.entries n result }
    {
        self.follow(n).is_some()
    }
}

// Whether a and b are one basic type as they stand.
// Kept: no derived `==`, which would tell one type apart by what does not count of its name and its lengths.
#[tactic(auto, using(crate::proofs::Follows::basics_same))]
fn same_basic(a: &Typ, b: &Typ) -> bool
    ensures { SameBasic a.now b.now result }
{
    a.levels == 0 && b.levels == 0 && a.base < kinds::NAMED && a.base == b.base
}
