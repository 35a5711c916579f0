//! The mnemonic that is meant by a word.
ghost use Rattle.std.specs.Prelude.{◌≡◌, IfOk, find, map, option_map};
ghost use Rattle.sbpf_asm.specs.Rows.{rows};
ghost use Rattle.sbpf_asm.specs.Views.{row_view};
ghost use Rattle.asm_hints.specs.Hints.{is_near, nearest_row};

use sbpf_asm::{Row, rows};
use sol_base::OutOfMemory;
use std::alloc::Global;
use strsim::generic_levenshtein;

/// Whether a word is so many edits or fewer away from a row's mnemonic.
fn is_near(alloc: Global, most: usize, word: &[u8], row: Row) -> Result<bool, OutOfMemory>
    ensures { IfOk result (λ is. is ≡ is_near most word.now (row_view row)) }
{
    Ok(generic_levenshtein(alloc, row.mnemonic, word)? <= most)
}

/// The first row that is so many edits or fewer away.
fn row_within(
    alloc: Global,
    rows: &[Row],
    most: usize,
    word: &[u8],
) -> Result<Option<Row>, OutOfMemory>
    ensures { IfOk result (λ row. option_map row_view row
        ≡ find (is_near most word.now) (map row_view rows.now)) }
{
    for row in rows {
        if is_near(alloc, most, word, *row)? {
            return Ok(Some(*row));
        }
    }
    Ok(None)
}

/// The row whose mnemonic is meant by a word: the first that is one edit away, or else two. Words of 3
/// to 16 bytes alone are looked at.
#[tactic(auto, unfolding(crate::specs::Hints::nearest_row))]
pub fn nearest_mnemonic(alloc: Global, word: &[u8]) -> Result<Option<Row>, OutOfMemory>
    ensures { IfOk result (λ row. option_map row_view row ≡ nearest_row word.now) }
{
    if word.len() <= 2 || 16 < word.len() {
        return Ok(None);
    }
    match row_within(alloc, rows(), 1, word)? {
        Some(row) => Ok(Some(row)),
        None => row_within(alloc, rows(), 2, word),
    }
}
