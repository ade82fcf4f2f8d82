//! The job of `load`.
ghost use Rattle.std.specs.Prelude.{◌≡◌, ◌≤◌, ◌+◌, ◌^◌, map, IfOk};
ghost use Rattle.mm_text.specs.Loading.{matrix_of};
ghost use Rattle.piece_file.specs.PieceView.{piece_view};
ghost use Rattle.drawn_jobs.specs.Dealing.{pieces_of};
ghost use Rattle.drawn_jobs.specs.Jobs as jobs;
ghost use Rattle.drawn_jobs.specs.Jobs.{drawn_matrix, IsLoaded};

use crate::dealing::deal;
use crate::drawing::draw;
use crate::grids::{first_grid, second_grid};
use crate::moving::move_on;
use crate::totals::sum_on;
use descriptor::Moved;
use mm_text::Whole;
use piece_file::Piece;
use std::alloc::{AllocError, Global};

/// What the job of `load` took: the meets, messages and copies of both moves together, and the sum of all words that came
/// back.
#[derive(Clone, Copy, Debug, PartialEq, Eq)]
pub struct Loaded {
    pub meets: u64,
    pub messages: u32,
    pub copies: u32,
    pub sum: i64,
}

// The drawn matrix.
#[tactic(auto, using(crate::proofs::DrawnLaws::drawn_area, crate::proofs::DrawnLaws::square_fits))]
fn drawn(alloc: Global, seed: u64, size: u32) -> Result<Whole, AllocError>
    requires { size ≤ 2000 }
    ensures { IfOk result (λ w. matrix_of w ≡ drawn_matrix seed size) }
{
    let words = draw(alloc, seed, size * size)?;
    Ok(Whole {
        rows: size,
        columns: size,
        words,
    })
}

// The pieces of the drawn matrix on the first grid.
fn first_pieces(alloc: Global, seed: u64, size: u32) -> Result<Vec<Piece>, AllocError>
    requires { size ≤ 2000 }
    ensures { IfOk result (λ v. map piece_view v.items ≡ pieces_of jobs.first_grid (drawn_matrix seed size)) }
{
    let whole = drawn(alloc, seed, size)?;
    deal(alloc, &whole, &first_grid())
}

// The numbers of both moves together, and the sum.
fn both(there: Moved, back: Moved, sum: i64) -> Loaded
    requires there { (there.meets ≤ 2 ^ 32) × ((there.messages ≤ 256) × (there.copies ≤ 256)) }
    requires back { (back.meets ≤ 2 ^ 32) × ((back.messages ≤ 256) × (back.copies ≤ 256)) }
    ensures { result ≡ record {
      meets = there.meets + back.meets;
      messages = there.messages + back.messages;
      copies = there.copies + back.copies;
      sum = sum;
    } }
{
    Loaded {
        meets: there.meets + back.meets,
        messages: there.messages + back.messages,
        copies: there.copies + back.copies,
        sum,
    }
}

/// Draws a matrix of `size` rows and columns from the seed, 1 to 2,000, by columns: its words are the numbers that are drawn.
/// Spreads it over 4 by 4 processes in blocks of 64 by 64, moves it to 2 by 8 processes in blocks of 32 by 32, and back into
/// a third array on the first grid. The only refusal is out of memory.
pub fn load_job(alloc: Global, seed: u64, size: u32) -> Result<Loaded, AllocError>
    requires some { 1 ≤ size }
    requires few { size ≤ 2000 }
    ensures { IfOk result (λ l. IsLoaded seed size l) }
{
    let (first, second) = (first_grid(), second_grid());
    let dealt = first_pieces(alloc, seed, size)?;
    let there = move_on(alloc, dealt, &second)?;
    let back = sum_on(alloc, there.pieces, &first)?;
    Ok(both(there.numbers, back.numbers, back.sum))
}
