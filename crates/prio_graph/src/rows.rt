//! Rows of positions.
ghost use Rattle.std.specs.Prelude.{◌≡◌, ℕ, ◌<◌, [], All, IfOk, OnOk, length, replicate};
ghost use Rattle.prio_graph.specs.Chains.{once};
ghost use Rattle.prio_graph.specs.Kept.{edges, ends_in, AddsEdges};

use lock_chains::push_at;
use sol_base::{Items, OutOfMemory};
use std::alloc::Global;

/// So many rows, all of them empty.
pub(crate) fn empty_rows(alloc: Global, count: usize) -> Result<Vec<Items<u32>>, OutOfMemory>
    ensures { IfOk result (λ rows. rows.items ≡ replicate count []) }
{
    let mut rows = Vec::with_capacity(alloc, count)?;
    while rows.len() < count {
        rows.push(Items::new(alloc))?;
    }
    Ok(rows)
}

/// Whether a row ends in a number.
fn ends_in(row: &[u32], number: u32) -> bool
    ensures { result ≡ ends_in row.now number }
{
    row.last() == Some(&number)
}

/// Adds an edge to a position from each of the earlier ones, one from each, and returns how many
/// they are. A row that has the position already ends in it, as no row has it before.
pub(crate) fn add_edges(
    rows: &mut [Items<u32>],
    earlier: &[u32],
    position: u32,
) -> Result<usize, OutOfMemory>
    requires within { All (λ j. j < length rows.old) earlier.now }
    requires none { (j : ℕ) → edges rows.old j position ≡ 0 }
    ensures edges { OnOk result (AddsEdges earlier.now position rows.old rows.new) }
    ensures added { IfOk result (λ added. added ≡ length (once earlier.now)) }
{
    let mut added = 0;
    for j in earlier {
        let at = *j as usize;
        if !ends_in(rows[at].as_slice(), position) {
            push_at(rows, at, position)?;
            added += 1;
        }
    }
    Ok(added)
}
