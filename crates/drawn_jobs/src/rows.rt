//! The words of a column that lie in one process row.
ghost use Rattle.std.specs.Prelude.{◌≡◌, ◌<◌, ◌≤◌, ◌+◌, ◌*◌, ◌^◌, ◌++◌, length, min, OnOk};
ghost use Rattle.index_tools.specs.Spread.{spread};
ghost use Rattle.spread_cells.specs.Spreading.{owned};
ghost use Rattle.drawn_jobs.specs.Rows.{words_at};

use piece_moves::Distribution;
use std::alloc::AllocError;

// The rows of a process row in one turn of all process rows: where they begin, and where they end.
#[tactic(auto, using(crate::proofs::RowLaws::fits_turn))]
fn run_of(rows: u32, to: &Distribution, p: u32, turn: u32) -> (u32, u32)
    requires rows_fit { rows ≤ 2 ^ 24 }
    requires process { p < to.now.nprow }
    requires few { to.now.nprow ≤ 64 }
    requires turn { turn * (to.now.mb * to.now.nprow) ≤ 2 ^ 30 }
    ensures start { result.0 ≡ min (turn * (to.now.mb * to.now.nprow) + p * to.now.mb) rows }
    ensures end { result.1 ≡ min (result.0 + to.now.mb) rows }
{
    let start = (turn * (to.mb * to.nprow) + p * to.mb).min(rows);
    (start, (start + to.mb).min(rows))
}

/// Appends the words of a column that lie in process row `p`, block by block.
#[tactic(auto, using(crate::proofs::RowLaws::rows_begin, crate::proofs::RowLaws::rows_more, crate::proofs::RowLaws::rows_end))]
pub(crate) fn push_rows(
    column: &[i32],
    to: &Distribution,
    p: u32,
    words: &mut Vec<i32>,
) -> Result<(), AllocError>
    requires rows_fit { length column.now ≤ 2 ^ 24 }
    requires process { p < to.now.nprow }
    requires few { to.now.nprow ≤ 64 }
    ensures { OnOk result (words.new.items ≡ words.old.items ++
        words_at column.now (owned (spread to.now.mb 0 to.now.nprow) p (length column.now))) }
{
    let rows = column.len() as u32;
    let size = to.mb * to.nprow;
    let turns = (rows + (size - 1)) / size;
    for turn in 0..turns {
        let (start, end) = run_of(rows, to, p, turn);
        words.extend_from_slice(&column[start as usize..end as usize])?;
    }
    Ok(())
}
