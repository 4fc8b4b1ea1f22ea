// The edges between a node's names and the search for a loop along them: document 01, 'The loop search', after the Rust's
// `detect_combinational_cycle` and `dfs`. There are at most 512 names. The names that a has an edge to are a set of bits, row a of the graph:
// the eight words at 8 * a, 4,096 words in all. Setting an edge and clearing a row touch that row alone, so that a node costs what its own
// equations cost. A cleared name is never entered again, which takes at most one look along each edge and finds the Rust's path. Which nodes
// are searched is not decided here.
#![tactic(auto)]

ghost use Rattle.std.specs.Prelude.{ℕ, ◌+◌, ◌*◌, ◌-◌, ◌≤◌, ◌<◌, ◌≡◌, false, not, length, take, drop};
ghost use Rattle.std.specs.Iterator.{at_most};
ghost use Rattle.loops.specs.Rows.{has, Next, Gives, Connected, Joined, Emptied, Cleared};
ghost use Rattle.loops.specs.Steps.{free, CanEnter, Enters, Counts, Places};
ghost use Rattle.loops.specs.Search.{Searches};

use lustre::{NAMES, NameId};
use std::ops::Range;

// The words of a graph: eight for each name.
// Kept: a graph is no array of `NameSet`s, since it lies in the work memory, which C lends as words.
pub const GRAPH: usize = 8 * NAMES;

// The words of a path: a loop is closed by its first name.
// Kept: a path is an array with a depth beside it, and no `ArrayVec`, since a search that comes back does not take its names off.
pub const PATH: usize = NAMES + 1;

// A set of names by number, one bit a name.
#[derive(Clone, Copy)]
pub struct NameSet {
    pub bits: [u64; 8],
}

impl NameSet {
    // No name.
    pub fn new() -> NameSet
        ensures { (b : ℕ) → has result.bits 0 b ≡ false }
    {
        NameSet { bits: [0; 8] }
    }

    // Whether the set has a name.
    pub fn contains(&self, name: NameId) -> bool
        ensures { result ≡ has self.now.bits 0 name.number }
    {
        let i = (name.number / 64) as usize;
        (self.bits[i] >> (name.number % 64)) % 2 == 1
    }

    // Adds a name, and says whether it is new.
    pub fn insert(&mut self, name: NameId) -> bool
        ensures added { Connected self.old.bits 0 name.number self.new.bits }
        ensures fresh { result ≡ not (has self.old.bits 0 name.number) }
    {
        let fresh = !self.contains(name);
        let i = (name.number / 64) as usize;
        self.bits[i] |= 1u64 << (name.number % 64);
        fresh
    }
}

// The first name of a row from `from` on.
fn next(row: &[u64; 8], from: usize) -> Option<usize>
    requires { from ≤ 512 }
    ensures { Next row.now 0 from result }
{
    let mut skip = from % 64;
    for k in from / 64..8 {
        let rest = row[k] >> skip;
        if rest != 0 {
            return Some(64 * k + skip + rest.trailing_zeros() as usize);
        }
        skip = 0;
    }
    None
}

// The names of a row from a name on, in order.
#[derive(Drop)]
struct RowNames<'a> {
    row: &'a [u64; 8],
    from: usize,
}

impl<'a> Iterator for RowNames<'a> {
    type Item = usize;

    ghost can_next = { λ s. s.from ≤ 512 };

    ghost next_gives = { Gives };

    ghost remaining = { λ s. at_most (512 - s.from) };

    fn next(&mut self) -> Option<usize> {
        let name = next(self.row, self.from)?;
        self.from = name + 1;
        Some(name)
    }
}

// The names of a row, in order.
fn names<'a>(row: &'a [u64; 8]) -> RowNames<'a>
    ensures { (result.row.now ≡ row.now) × (result.from ≡ 0) }
{
    RowNames { row, from: 0 }
}

// The row of a name.
fn row_of(graph: &[u64; GRAPH], a: usize) -> &[u64; 8]
    requires { a < 512 }
    ensures { result.now ≡ take 8 (drop (8 * a) graph.now) }
{
    graph[8 * a..].first_chunk().unwrap()
}

// Adds the edge from `a` to `b`; and, where `graph` is one set of names and `a` is 0, the name `b`.
pub fn connect(graph: &mut [u64], a: usize, b: usize)
    requires row { 8 * a + 8 ≤ length graph.old }
    requires name { b < 512 }
    ensures { Connected graph.old a b graph.new }
{
    graph[8 * a + b / 64] |= 1u64 << (b % 64);
}

// Adds an edge from `a` to each name of the set `row`, a word at a time.
pub fn join_row(graph: &mut [u64], a: usize, row: &[u64])
    requires row { 8 * a + 8 ≤ length graph.old }
    requires set { 8 ≤ length row.now }
    ensures { Joined graph.old a row.now graph.new }
{
    for k in 0..8 {
        graph[8 * a + k] |= row[k];
    }
}

// Takes all edges from `a` away.
fn clear_row(graph: &mut [u64; GRAPH], a: usize)
    requires { a < 512 }
    ensures { Emptied graph.old a graph.new }
{
    graph[8 * a..8 * a + 8].fill(0);
}

// Takes all edges from each name of a set away.
pub fn clear_rows(graph: &mut [u64; GRAPH], set: &NameSet)
    ensures { Cleared graph.old set.now.bits graph.new }
{
    for a in names(&set.bits) {
        clear_row(graph, a);
    }
}

// Whether a name stands on the path, is cleared, or neither.
#[derive(Clone, Copy, PartialEq, Eq)]
enum Colour {
    Free,
    OnPath,
    Cleared,
}

// Enters `node`, which is neither on the path nor cleared, as the path's name number `depth`, and looks at its successors in order: one on
// the path closes a loop, one cleared is passed over, any other is entered. Where a path that ends in a loop ends, if one was found; each
// look is added to `looks`, which takes less of the stack at each name of a path than to answer with them.
fn enter(
    graph: &[u64; GRAPH],
    colour: &mut [Colour; NAMES],
    path: &mut [u64; PATH],
    depth: usize,
    node: usize,
    looks: &mut u64,
) -> Option<usize>
    requires can { CanEnter colour.old depth node }
    requires few { looks.old + 512 * free colour.old ≤ 262144 }
    ensures { Counts (Enters graph.now colour.old path.old depth node colour.new path.new result) looks.old looks.new }
{
    colour[node] = Colour::OnPath;
    path[depth] = node as u64;
    for s in names(row_of(graph, node)) {
        *looks += 1;
        match colour[s] {
            Colour::Cleared => {}
            Colour::OnPath => {
                path[depth + 1] = s as u64;
                return Some(depth + 2);
            }
            Colour::Free => {
                let end = enter(graph, colour, path, depth + 1, s, looks);
                if end.is_some() {
                    return end;
                }
            }
        }
    }
    colour[node] = Colour::Cleared;
    None
}

// The place of the first name of the loop that `path` ends with: the first place of its last name.
fn first(path: &[u64; PATH], end: usize) -> usize
    requires { (1 ≤ end) × (end ≤ 513) }
    ensures { Places path.now end result }
{
    let x = path[end - 1];
    path[..end].iter().position(|y| *y == x).unwrap()
}

// What a search found, the part of the path that is a loop closed by its first name, and how many looks along edges it took.
#[derive(Drop)]
pub struct Searched {
    pub found: Option<Range<usize>>,
    pub looks: u64,
}

// Looks for a loop, from each name of the set `defined` in order. `path` need not be cleared, and what it holds outside the loop is left free.
// The names are entered with arrays in place of the slices, so that no length is kept at each name of a path.
pub fn search(graph: &[u64], defined: &[u64], path: &mut [u64]) -> Searched
    requires rows { 4096 ≤ length graph.now }
    requires set { 8 ≤ length defined.now }
    requires long { 513 ≤ length path.old }
    ensures { Searches graph.now defined.now path.new result.found result.looks }
{
    let rows = graph.first_chunk().unwrap();
    let set = defined.first_chunk().unwrap();
    let room = path.first_chunk_mut().unwrap();
    let mut colour = [Colour::Free; NAMES];
    let mut looks: u64 = 0;
    for v in names(set) {
        if colour[v] != Colour::Free {
            continue;
        }
        if let Some(end) = enter(rows, &mut colour, room, 0, v, &mut looks) {
            let start = first(room, end);
            let found = Some(start..end);
            return Searched { found, looks };
        }
    }
    Searched { found: None, looks }
}
