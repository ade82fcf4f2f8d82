//! The arguments of a move of pieces.
ghost use Rattle.std.specs.Prelude.{◌≡◌, ◌<◌, ◌*◌, map, IfOk};
ghost use Rattle.piece_grammar.specs.Head.{IsHead};
ghost use Rattle.piece_file.specs.HeadView.{head_view};
ghost use Rattle.piece_file.specs.PieceView.{piece_view};
ghost use Rattle.piece_file.specs.Gathering.{AreTurns};
ghost use Rattle.piece_moves.specs.Distribution.{head_over};
ghost use Rattle.piece_moves.specs.DistributionView.{distribution_view};
ghost use Rattle.piece_moves.specs.PieceMove as by;

use crate::distribution::Distribution;
use descriptor::{Desc, Llds, MrArgs, Spread};
use piece_file::{Head, Piece};
use std::alloc::{AllocError, Global};

// A descriptor that names a context.
fn desc_for(context: u32, head: &Head) -> Desc
    ensures { result ≡ by.desc_for context (head_view head.now) }
{
    Desc {
        dtype: 1,
        ctxt: i64::from(context),
        m: i64::from(head.m),
        n: i64::from(head.n),
        mb: i64::from(head.mb),
        nb: i64::from(head.nb),
        rsrc: i64::from(head.rsrc),
        csrc: i64::from(head.csrc),
        lld: i64::from(head.lld),
    }
}

/// The head of the first piece, which tells the grid, the matrix and the blocks of all.
pub fn first_head(pieces: &[Piece]) -> Head
    requires { AreTurns (map piece_view pieces.now) }
    ensures view { head_view result ≡ by.first_of (map piece_view pieces.now) }
    ensures head { IsHead (head_view result) }
{
    pieces[0].head
}

// The leading dimensions of the pieces.
fn llds_from(alloc: Global, pieces: &[Piece]) -> Result<Llds, AllocError>
    ensures { IfOk result (λ l. l ≡ by.llds_from (map piece_view pieces.now)) }
{
    let mut llds = Vec::with_capacity(alloc, pieces.len())?;
    for piece in pieces {
        llds.push(i64::from(piece.head.lld))?;
    }
    Ok(Llds::new(llds))
}

// The leading dimension of moved piece `k`.
fn lead_at(first: &Head, to: &Distribution, k: u32) -> u32
    requires head { IsHead (head_view first.now) }
    requires piece { k < to.now.nprow * to.now.npcol }
    ensures { result ≡ (head_over (distribution_view to.now) first.now.m first.now.n k).lld }
{
    to.head(first.m, first.n, k).lld
}

// The leading dimensions of the moved pieces.
#[tactic(auto, using(crate::proofs::ListLaws::llds_to_more))]
fn llds_to(alloc: Global, first: &Head, to: &Distribution) -> Result<Llds, AllocError>
    requires { IsHead (head_view first.now) }
    ensures { IfOk result (λ l. l ≡ by.llds_to (head_view first.now) (distribution_view to.now)) }
{
    let count = to.nprow * to.npcol;
    let mut llds = Vec::with_capacity(alloc, count as usize)?;
    for k in 0..count {
        llds.push(i64::from(lead_at(first, to, k)))?;
    }
    Ok(Llds::new(llds))
}

/// The arguments of the move: the whole matrix, from array 0 to array 1.
pub(crate) fn args_for(
    alloc: Global,
    pieces: &[Piece],
    to: &Distribution,
) -> Result<MrArgs, AllocError>
    requires { AreTurns (map piece_view pieces.now) }
    ensures { IfOk result (λ a. a ≡ by.args_for (map piece_view pieces.now) (distribution_view to.now)) }
{
    let first = first_head(pieces);
    let source = llds_from(alloc, pieces)?;
    let target = llds_to(alloc, &first, to)?;
    Ok(MrArgs {
        m: i64::from(first.m),
        n: i64::from(first.n),
        a: 0,
        ia: 1,
        ja: 1,
        desca: Spread {
            desc: desc_for(1, &first),
            llds: source,
        },
        b: 1,
        ib: 1,
        jb: 1,
        descb: Spread {
            desc: desc_for(2, &to.head(first.m, first.n, 0)),
            llds: target,
        },
        ictxt: 0,
    })
}
