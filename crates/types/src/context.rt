// What the names of a project mean: the scope, six tables by name number, and the records that it leads to.
ghost use Rattle.std.specs.Prelude.{◌+◌, ◌^◌, ◌<◌, ◌≤◌, ◌≡◌, get_or, set, IfSome, MatchOption};
ghost use Rattle.types.specs.Scope.{Targets};

use lustre::{NAMES, NameId, Records};

// The entries of the scope's six tables, of one for each name.
pub const ENTRIES: usize = 6 * NAMES;

// What the names mean: six tables by name number. An entry is 0 where the name means nothing, else 1 and the number of the record that
// declares it.
// Kept: no options. An entry is the place behind the declaring record, which is never 0; options of u64 take twice the memory, which each call
// clears, and options of smaller numbers are converted at each reading. And one array for the six tables, each known by where it begins: what a
// contract says of an entry is its place in it, which an enum of tables would be turned into at each look-up.
#[derive(Drop)]
pub struct Scope {
    pub entries: [u64; ENTRIES],
}

impl Scope {
    // Where each table begins.
    pub const ALIASES: usize = 0;

    pub const RECORDS: usize = NAMES;

    pub const VARIANTS: usize = 2 * NAMES;

    pub const CONSTANTS: usize = 3 * NAMES;

    pub const NODES: usize = 4 * NAMES;

    pub const PORTS: usize = 5 * NAMES;

    // The record that declares a name in the table that begins at `table`, if one does.
    pub fn declared(&self, table: usize, name: NameId) -> Option<usize>
        requires { table ≤ 2560 }
        ensures entry { MatchOption result (get_or self.now.entries (name.number + table) 0 ≡ 0)
            (λ p. get_or self.now.entries (name.number + table) 0 ≡ p + 1) }
        ensures below { IfSome result (λ p. p + 1 < 2 ^ 64) }
    {
        let entry = self.entries[name.number as usize + table];
        if entry == 0 {
            return None;
        }
        Some(entry as usize - 1)
    }

    // Makes a record the declaration in force of a name, in the table that begins at `table`.
    pub fn declare(&mut self, table: usize, name: NameId, at: usize)
        requires { (table ≤ 2560) × (at < 4096) }
        ensures { self.new.entries ≡ set self.old.entries (name.number + table) (at + 1) }
    {
        self.entries[name.number as usize + table] = at as u64 + 1;
    }

    // Leaves a name without a declaration in the table that begins at `table`.
    pub fn forget(&mut self, table: usize, name: NameId)
        requires { table ≤ 2560 }
        ensures { self.new.entries ≡ set self.old.entries (name.number + table) 0 }
    {
        self.entries[name.number as usize + table] = 0;
    }
}

// What an expression is judged by: all records, and what the names in them mean. Each alias leads to a type.
#[derive(Clone, Copy)]
pub struct Context<'a> {
    pub records: Records<'a>,
    pub scope: &'a Scope,
    pub ghost led: { Targets records.kinds.now records.words.now scope.now.entries },
}
