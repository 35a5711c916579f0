//! The graph of positions: which are ready, and the least of them.
ghost use Rattle.std.specs.Prelude.{◌≡◌, ℕ, ◌+◌, ◌*◌, ◌^◌, ◌<◌, ◌≤◌, All, IfOk, IfSome, IfNone, length, slice_index, slice_set};
ghost use Rattle.prio_graph.specs.Trees.{IsTree};
ghost use Rattle.prio_graph.specs.Ready.{all_waiting, IsReady, IsLeastOfReady, mark_at, ready_count, set_at};
ghost use Rattle.prio_graph.specs.Kept.{free_count, times, ShowsFree, ShowsReleased};
ghost use Rattle.prio_graph.specs.declared.mark.Mark.TheVariants.{Waiting, Started, Done};

use crate::edges::edges_of;
use crate::mark::Mark;
use crate::tree::{NONE, empty_tree, least_leaf, write_leaf};
use lock_table::LockSet;
use sol_base::{Items, OutOfMemory};
use std::alloc::Global;
use std::marker::Model;

/// Positions that wait for earlier ones, by the locks of each.
#[derive(Drop)]
pub struct Graph {
    sets: Items<LockSet>,
    marks: Vec<Mark>,
    // How many edges lead to a position whose earlier end is not done.
    waits: Vec<usize>,
    // The later ends of the edges from a position.
    later: Vec<Items<u32>>,
    // The ready positions.
    ready: Vec<u32>,
    // How many they are.
    ready_count: u32,
}

impl Model for Graph {
    ghost use Rattle.prio_graph.specs.Ready.{Positions};
    ghost use Rattle.prio_graph.specs.Kept.{IsGraph, waiting_free_count};
    ghost use Rattle.std.specs.Prelude.{◌≡◌};

    ghost Value = { Positions };

    ghost view = { λ g. record { sets = g.sets; marks = g.marks.items } };

    ghost invariant = { λ g. IsGraph g.sets g.marks.items g.waits.items g.later.items g.ready.items
        × (g.ready_count ≡ waiting_free_count g.marks.items g.waits.items) };
}

impl Graph {
    /// The positions of these locks, all of them waiting. It takes all memory that the graph will
    /// need.
    pub fn new(alloc: Global, sets: Items<LockSet>) -> Result<Graph, OutOfMemory>
        requires { length sets < 2 ^ 32 }
        ensures { IfOk result (λ graph. graph ≡ all_waiting sets) }
    {
        let marks = vec![in alloc; Mark::Waiting; sets.len()]?;
        let edges = edges_of(alloc, sets.as_slice())?;
        let ready = tree_of(alloc, edges.waits.as_slice())?;
        let ready_count = count_free(edges.waits.as_slice());
        Ok(Graph {
            sets,
            marks,
            waits: edges.waits,
            later: edges.later,
            ready,
            ready_count,
        })
    }

    /// The locks of a position.
    pub fn set(&self, position: u32) -> &LockSet
        requires { position < length self.now.sets }
        ensures set { result.now ≡ set_at self.now.sets position }
        ensures marks { length self.now.marks ≡ length self.now.sets }
    {
        &self.sets.as_slice()[position as usize]
    }

    /// The least position that is ready: it is waiting, and every earlier conflicting one is done.
    pub fn least_ready(&self) -> Option<u32>
        ensures least { IfSome result (IsLeastOfReady self.now) }
        ensures none { IfNone result ((i : ℕ) → IsReady self.now i → ⊥) }
    {
        let least = least_leaf(self.ready.as_slice(), self.sets.len());
        if least == NONE { None } else { Some(least) }
    }

    /// How many positions are ready.
    pub fn ready_count(&self) -> u32
        ensures { result ≡ ready_count self.now }
    {
        self.ready_count
    }

    /// Starts a position that is ready.
    pub fn start(&mut self, position: u32)
        requires { IsReady self.old position }
        ensures { self.new ≡ record self.old { marks = slice_set self.old.marks position Started } }
    {
        let at = position as usize;
        self.marks[at] = Mark::Started;
        write_leaf(&mut self.ready, self.sets.len(), at, NONE);
        self.ready_count -= 1;
    }

    /// Ends a position that is started: it is done.
    pub fn finish(&mut self, position: u32)
        requires { mark_at self.old.marks position ≡ Started }
        ensures { self.new ≡ record self.old { marks = slice_set self.old.marks position Done } }
    {
        let at = position as usize;
        self.marks[at] = Mark::Done;
        let freed = release(&mut self.waits, &mut self.ready, self.later[at].as_slice());
        self.ready_count += freed;
    }

    /// Takes a start back: the position is waiting again.
    pub fn unstart(&mut self, position: u32)
        requires { mark_at self.old.marks position ≡ Started }
        ensures { self.new ≡ record self.old { marks = slice_set self.old.marks position Waiting } }
    {
        let at = position as usize;
        self.marks[at] = Mark::Waiting;
        write_leaf(&mut self.ready, self.sets.len(), at, position);
        self.ready_count += 1;
    }
}

/// A tree that shows the positions that wait for nobody.
fn tree_of(alloc: Global, waits: &[usize]) -> Result<Vec<u32>, OutOfMemory>
    requires { length waits.now < 2 ^ 32 }
    ensures length { IfOk result (λ tree. length tree.items ≡ 2 * length waits.now) }
    ensures is_tree { IfOk result (λ tree. IsTree tree.items (length waits.now)) }
    ensures leaves { IfOk result (λ tree. ShowsFree waits.now tree.items) }
{
    let count = waits.len();
    let mut tree = empty_tree(alloc, count)?;
    for i in 0..count {
        if waits[i] == 0 {
            write_leaf(&mut tree, count, i, i as u32);
        }
    }
    Ok(tree)
}

/// How many positions wait for nobody.
fn count_free(waits: &[usize]) -> u32
    requires { length waits.now < 2 ^ 32 }
    ensures { result ≡ free_count waits.now }
{
    let mut free = 0;
    for i in 0..waits.len() {
        if waits[i] == 0 {
            free += 1;
        }
    }
    free
}

/// Takes one edge from each position of a row, and shows those that wait for nobody any more. It
/// returns how many they are.
fn release(waits: &mut [usize], tree: &mut [u32], row: &[u32]) -> u32
    requires few { length waits.old < 2 ^ 32 }
    requires within { All (λ i. i < length waits.old) row.now }
    requires enough { (i : ℕ) → times i row.now ≤ slice_index waits.old i }
    requires length { length tree.old ≡ 2 * length waits.old }
    requires is_tree { IsTree tree.old (length waits.old) }
    ensures waits { (i : ℕ) → slice_index waits.new i + times i row.now ≡ slice_index waits.old i }
    ensures is_tree { IsTree tree.new (length waits.old) }
    ensures leaves { ShowsReleased row.now waits.old waits.new tree.old tree.new }
    ensures freed { free_count waits.old + result ≡ free_count waits.new }
{
    let count = waits.len();
    let mut freed = 0;
    for i in row {
        let at = *i as usize;
        waits[at] -= 1;
        if waits[at] == 0 {
            write_leaf(tree, count, at, *i);
            freed += 1;
        }
    }
    freed
}
