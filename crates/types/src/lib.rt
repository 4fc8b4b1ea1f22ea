// Types by value: a base kind, a name's number and up to 127 array lengths, passed and returned as a struct, and what the records and the
// scope say of them. `ol_ir/types.rs` in document 01's forms: no boxes, names by number. Kinds 20 to 31 are the basic types, 33 is a named
// type; 34 and 35, which no record has, are the types of tuples of so many members and of no value (`__tuple__` and `__unit__` in the Rust).
// The lengths stand innermost first, so that an array's element is the type with one length less.
// Reading types from the records, resolving them and the types of literals are the modules below.
#![tactic(auto)]

pub mod aliases;
pub mod context;
pub mod literal;
pub mod records;

ghost use Rattle.std.specs.Prelude.{◌≤◌, ◌<◌, ◌≡◌};

use lustre::{NameId, kinds};

// The kind of a tuple type.
// Kept: a number, here and of the next, as the base of a type is (`Typ`).
pub const TUPLE: u8 = 34;

// The kind of the type of no value.
pub const UNIT: u8 = 35;

// A type has at most so many lengths: a type in the records has at most 67, and each of an expression's 60 levels may put one around it.
pub const MOST_LEVELS: usize = 127;

// A type: `levels` arrays around a basic or named type or a tuple. `name` is a name's number for kind 33, the number of members for 34,
// and counts for no other; lengths from `levels` on do not count.
// Kept: the base is a record's kind as it is lent, and no enum, which a match over 14 kinds would make at each reading of a type and each test
// would take apart again.
#[derive(Clone, Copy)]
pub struct Typ {
    pub base: u8,
    pub name: u64,
    pub levels: usize,
    // Kept: arrayvec's ArrayVec<u32, 127> is not Copy, as a type has to be: an operand's type is also the operation's.
    pub lengths: [u32; MOST_LEVELS],
    pub ghost fits: { levels ≤ 127 },
    // The number of a named type is a name's.
    pub ghost known: { base ≡ 33 → name < 512 },
}

// The type of what stands at a place, a type or an expression, and the place behind it.
#[derive(Clone, Copy)]
pub struct Typed {
    pub typ: Typ,
    pub next: usize,
}

impl Typ {
    ghost use Rattle.std.specs.Prelude.{◌≡◌, ◌<◌, ◌+◌};
    ghost use Rattle.lustre.specs.Types.{same_type, is_integer, is_numeric, within};
    ghost use Rattle.types.specs.Value.{Naming, Injective, bottom, asTy, outer, Bottom, ArrayOf, Around, Members};

    // The type of base kind k, with name number n.
    #[tactic(auto, unfolding(crate::specs::Value::asTy, crate::specs::Value::up))]
    pub fn bottom(k: u8, n: u64) -> Typ
        requires { k ≡ 33 → n < 512 }
        ensures { Bottom k n result }
    {
        Typ {
            base: k,
            name: n,
            levels: 0,
            lengths: [0; MOST_LEVELS],
        }
    }

    // The type of base kind k, with no name of its own: every basic type and unit.
    pub fn basic(k: u8) -> Typ
        ensures { Bottom k 0 result }
    {
        Typ::bottom(k, 0)
    }

    // The type of tuples of n members.
    pub fn tuple(n: u64) -> Typ
        ensures { Bottom 34 n result }
    {
        Typ::bottom(TUPLE, n)
    }

    // The named type of a name.
    pub fn named(name: NameId) -> Typ
        ensures { Bottom 33 name.number result }
    {
        Typ::bottom(kinds::NAMED, name.number)
    }

    // The array of n of this type.
    #[tactic(auto, using(crate::proofs::Values::up_push), unfolding(crate::specs::Value::asTy))]
    pub fn array(mut self, n: u32) -> Typ
        requires { self.levels < 127 }
        ensures { ArrayOf n self result }
    {
        self.lengths[self.levels] = n;
        self.levels += 1;
        self
    }

    // The length of an array type.
    pub fn outer_length(&self) -> u32
        requires { 0 < self.now.levels }
        ensures { result ≡ outer self.now }
    {
        self.lengths[self.levels - 1]
    }

    // The element type of an array type.
    #[tactic(auto, using(crate::proofs::Values::up_pop), unfolding(crate::specs::Value::asTy))]
    pub fn element(&self) -> Typ
        requires { 0 < self.now.levels }
        ensures { ArrayOf (outer self.now) result self.now }
    {
        let mut t = *self;
        t.levels -= 1;
        t
    }

    // Puts the lengths of t around this type.
    fn wrap(&mut self, t: &Typ)
        requires { self.old.levels + t.now.levels ≤ 127 }
        ensures { Around t.now self.old self.new }
    {
        let m = self.levels;
        // Kept: with `copy_from_slice` an alias took a quarter longer to resolve, since the lengths are few.
        for i in 0..t.levels {
            self.lengths[m + i] = t.lengths[i];
        }
        self.levels = m + t.levels;
    }

    // Whether this is a basic type of a kind from low to high.
    fn is_within(&self, low: u8, high: u8) -> bool
        requires { high < 33 }
        ensures { (ρ : Naming) → result ≡ within low high (asTy ρ self.now) }
    {
        self.levels == 0 && low <= self.base && self.base <= high
    }

    // Whether this is an integer type.
    pub fn is_integer(&self) -> bool
        ensures { (ρ : Naming) → result ≡ is_integer (asTy ρ self.now) }
    {
        self.is_within(kinds::INT8, kinds::UINT64)
    }

    // Whether this is an integer type or a type of floats.
    pub fn is_numeric(&self) -> bool
        ensures { (ρ : Naming) → result ≡ is_numeric (asTy ρ self.now) }
    {
        self.is_within(kinds::INT8, kinds::FLOAT64)
    }

    // The number of members of a tuple.
    pub fn members(&self) -> Option<u64>
        ensures { Members self.now result }
    {
        if self.levels == 0 && self.base == TUPLE {
            Some(self.name)
        } else {
            None
        }
    }

    // Whether the bases of this type and u, with their names, are one type.
    // Kept: here and below no derived `==`, which would tell one type apart by what does not count of its name and its lengths.
    #[tactic(auto, using(crate::proofs::Values::bases))]
    fn same_bottom(&self, u: &Typ) -> bool
        ensures { (ρ : Naming) → Injective ρ → result ≡ same_type (bottom ρ self.now.base self.now.name) (bottom ρ u.now.base u.now.name) }
    {
        self.base == u.base
            && match self.base {
                kinds::NAMED | TUPLE => self.name == u.name,
                _ => true,
            }
    }

    // Whether this type and u are one: names are compared by number, which says the same of texts that are all different.
    pub fn same(&self, u: &Typ) -> bool
        ensures { (ρ : Naming) → Injective ρ → result ≡ same_type (asTy ρ self.now) (asTy ρ u.now) }
    {
        self.levels == u.levels
            && self.lengths[..self.levels] == u.lengths[..u.levels]
            && self.same_bottom(u)
    }
}

#[cfg(test)]
mod tests {
    use super::*;

    // The types that `bottom` gives are told apart by their kind, and names and tuples by their number too.
    #[test]
    fn bottoms(rt: HostRuntime) {
        let name = Typ::bottom(kinds::NAMED, 511);
        let tuple = Typ::bottom(TUPLE, 3);
        let int = Typ::bottom(kinds::INT32, 7);
        assert_eq!(rt; (name.base, name.name, name.levels), (kinds::NAMED, 511, 0));
        assert_eq!(rt; (tuple.base, tuple.name, tuple.levels), (TUPLE, 3, 0));
        assert_eq!(rt; tuple.members(), Some(3));
        assert!(rt; int.same(&Typ::basic(kinds::INT32)));
        assert!(rt; !name.same(&Typ::bottom(kinds::NAMED, 510)));
        assert!(rt; !tuple.same(&Typ::bottom(TUPLE, 2)));
    }
}
