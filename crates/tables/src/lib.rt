// The tables of a project, made in passes over its records, with the lines that belong to declarations as a whole: lib.rs 134 to 183.
// A package, a type, a constant and a node each begin with a record of a kind of their own, so a pass looks at every record and acts on
// those kinds alone.
#![tactic(auto)]

ghost use Rattle.std.specs.Prelude.{ℕ, ◌+◌, ◌<◌, ◌≤◌, ◌≡◌, List, [], ◌∷◌, ◌++◌, map, length, replicate};
ghost use Rattle.lustre.specs.Name.{Name, set_of};
ghost use Rattle.lustre.specs.Types.{Ty};
ghost use Rattle.lustre.specs.Project.{Port, Decl, Heading, decl_name, skeleton, all_types, all_nodes};
ghost use Rattle.lustre.specs.Resolve.{context, variants_of};
ghost use Rattle.lustre.specs.Report.{tagged, repeated_variants, type_lines, alias_numbers, alias_lines, node_name_lines};
ghost use Rattle.scope.specs.Model.{Model};
ghost use Rattle.scope.specs.Tables.{records as of_model, Tables, TablesOf, Declared};
ghost use Rattle.scope.specs.Writes.{Reports};
ghost use Rattle.tables.specs.Entered.{SameNames, EnumGiven, TypeGiven, Numbers, Entered, one_type, TypesHere, TypesTabled, one_alias, AliasesBelow};

use lines::{Lines, Spot};
use loops::NameSet;
use lustre::{AT_ENUM, AT_NODE, AT_PACKAGE, AT_TYPE, NAMES, NONE, NameId, Records, codes, kinds};
use scope::{redeclare, repeated_name};
use types::context::{Context, Scope};

// Enters the variants of the enum at a record, with a line for each that has been declared before: E0007. `number` is the enum's.
#[tactic(auto, using(crate::proofs::Variants::variants_inside))]
// Kept: what stands in the records is asked, here and below, and is no ghost fact: it is data, and a ghost fact has one proof alone.
fn declare_variants(words: &[u64], scope: &mut Scope, at: usize, number: u64, lines: &mut Lines)
    requires { EnumGiven words.now at }
    ensures { (g : EnumGiven words.now at) (as' : List (Name × Ty)) (rs : List (Name × List Port)) (us : List (Name × Name)) (cs : List (Name × Ty))
        (ns : List (Name × Heading)) (env : List Port) → Tables (of_model g.model) as' rs us cs ns env scope.old.entries →
        Tables (of_model g.model) as' rs (us ++ map (λ v. (v, g.x)) g.vs) cs ns env scope.new.entries × ((seen : List Name) →
        SameNames seen (map (λ e. e.0) us) → Reports g.model.number (repeated_variants number seen g.vs) lines.old lines.new) }
{
    let q = Spot::about(AT_ENUM, number);
    let count = words[at + 1] as usize;
    for word in &words[at + 2..at + 2 + count] {
        let name = NameId { number: *word };
        redeclare(scope, Scope::VARIANTS, name, at, codes::E0007, q, lines);
    }
}

// Enters the type at a record, of a package, with a line where its name has been declared before: E0006. `number` is the type's, and
// `numbers` has 1 and the number of the alias in force, by name number.
// Kept: no options there, as in the scope, since they take twice the memory, which each call clears.
fn declare_type(
    records: &Records,
    scope: &mut Scope,
    numbers: &mut [u64; NAMES],
    names: &mut NameSet,
    at: usize,
    pack: u64,
    number: u64,
    lines: &mut Lines,
)
    requires stands { TypeGiven records.now.kinds.now records.now.words.now at }
    requires few { number < 4096 }
    ensures { (g : TypeGiven records.now.kinds.now records.now.words.now at) (ds : List Decl) → length ds ≡ number →
        Entered g.model ds scope.old.entries numbers.old names.old.bits →
        Entered g.model (ds ++ (g.d ∷ [])) scope.new.entries numbers.new names.new.bits × ((seen variants : List Name) →
        SameNames seen (map decl_name ds) → SameNames variants (map (λ e. e.0) (variants_of ds)) →
        Reports g.model.number (one_type pack number seen variants g.d) lines.old lines.new) }
{
    let name = records.name(at);
    repeated_name(
        names,
        name,
        codes::E0006,
        Spot::about(AT_PACKAGE, pack),
        lines,
    );
    match records.kinds[at] {
        kinds::ALIAS => {
            scope.declare(Scope::ALIASES, name, at);
            numbers[name.number as usize] = number + 1;
        }
        kinds::RECORD => scope.declare(Scope::RECORDS, name, at),
        _ => declare_variants(records.words, scope, at, number, lines),
    }
}

// Enters every type, in one pass, with E0006 and E0007 as met, lib.rs 138.
pub fn declare_types(
    records: &Records,
    scope: &mut Scope,
    numbers: &mut [u64; NAMES],
    lines: &mut Lines,
)
    requires model { Model records.now.kinds.now records.now.words.now }
    requires scope { scope.old.entries ≡ replicate 3072 0 }
    requires numbers { numbers.old ≡ replicate 512 0 }
    ensures { (g : Model records.now.kinds.now records.now.words.now) → TablesOf (of_model g) (all_types (skeleton g.P)) [] [] [] scope.new.entries ×
        Numbers g (all_types (skeleton g.P)) numbers.new × Reports g.number (type_lines 0 [] [] (tagged 0 (skeleton g.P))) lines.old lines.new }
{
    let mut names = NameSet::new();
    let mut packages = 0;
    let mut number = 0;
    for at in 1..records.kinds.len() {
        match records.kinds[at] {
            kinds::PACKAGE => packages += 1,
            kinds::ALIAS..=kinds::ENUM => {
                declare_type(
                    records,
                    scope,
                    numbers,
                    &mut names,
                    at,
                    packages - 1,
                    number,
                    lines,
                );
                number += 1;
            }
            _ => {}
        }
    }
}

// A line where the alias of a name number does not resolve: E0008, at the declaration in force.
fn check_alias(ctx: &Context, numbers: &[u64; NAMES], name: NameId, lines: &mut Lines)
    requires types { TypesHere ctx.now.records.kinds.now ctx.now.records.words.now ctx.now.scope.now.entries numbers.now }
    ensures { (g : TypesHere ctx.now.records.kinds.now ctx.now.records.words.now ctx.now.scope.now.entries numbers.now) →
        Reports g.model.number (one_alias g.model (g.model.text name.number)) lines.old lines.new }
{
    let e = numbers[name.number as usize];
    if e != 0 && !ctx.resolves(name.number) {
        let q = Spot::about(AT_TYPE, e - 1);
        lines.put(q, codes::E0008, NONE, name.number);
    }
}

// The lines of the aliases that do not resolve, in name order, lib.rs 163.
pub fn check_aliases(ctx: &Context, numbers: &[u64; NAMES], names: u64, lines: &mut Lines)
    requires types { TypesHere ctx.now.records.kinds.now ctx.now.records.words.now ctx.now.scope.now.entries numbers.now }
    requires few { names ≤ 512 }
    ensures { (g : TypesHere ctx.now.records.kinds.now ctx.now.records.words.now ctx.now.scope.now.entries numbers.now) → g.model.names ≡ names →
        AliasesBelow ctx.now.records.kinds.now ctx.now.records.words.now names → let s = skeleton g.model.P in let ns = alias_numbers 0 (all_types s) in
        Reports g.model.number (alias_lines (context s) ns (set_of (map (λ e. e.0) ns))) lines.old lines.new }
{
    for number in 0..names {
        check_alias(ctx, numbers, NameId { number }, lines);
    }
}

// Enters every constant and node, in one pass, with E0001 at each later node of a name, lib.rs 174.
pub fn declare_nodes(records: &Records, scope: &mut Scope, lines: &mut Lines)
    requires { TypesTabled records.now.kinds.now records.now.words.now scope.old.entries }
    ensures { (g : TypesTabled records.now.kinds.now records.now.words.now scope.old.entries) → Declared g.model [] scope.new.entries ×
        Reports g.model.number (node_name_lines 0 [] (all_nodes (skeleton g.model.P))) lines.old lines.new }
{
    let mut number = 0;
    for at in 1..records.kinds.len() {
        match records.kinds[at] {
            kinds::CONSTANT => scope.declare(Scope::CONSTANTS, records.name(at), at),
            kinds::FUNCTION..=kinds::IMPORTED => {
                let q = Spot::about(AT_NODE, number);
                redeclare(
                    scope,
                    Scope::NODES,
                    records.name(at),
                    at,
                    codes::E0001,
                    q,
                    lines,
                );
                number += 1;
            }
            _ => {}
        }
    }
}
