//! The contexts of a move: all ranks, the grid of the pieces, and the grid that they are moved to.
ghost use Rattle.std.specs.Prelude.{◌≡◌, ◌≤◌, ◌*◌, ◌∷◌, [], None, IfOk};
ghost use Rattle.proc_grid.specs.Refusals.{dealt_grid, shape_refusal};
ghost use Rattle.proc_grid.specs.declared.world.Order.TheVariants.{R};
ghost use Rattle.piece_grammar.specs.Head.{IsHead};
ghost use Rattle.piece_file.specs.HeadView.{head_view};

use crate::distribution::Distribution;
use piece_file::Head;
use proc_grid::{Context, Contexts, GridErr, Order, World, gridinit};
use std::alloc::{AllocError, Global};

// A grid whose ranks are dealt out by rows.
fn grid(alloc: Global, world: &World, nprow: u32, npcol: u32) -> Result<Context, AllocError>
    requires { shape_refusal world.now.ranks nprow npcol ≡ None }
    ensures { IfOk result (λ context. context ≡ dealt_grid R nprow npcol) }
{
    match gridinit(alloc, world, Order::R, nprow, npcol) {
        Ok(context) => Ok(context),
        Err(GridErr::NoMemory) => Err(AllocError),
        Err(_) => unreachable!(),
    }
}

/// The contexts of a move in a world of so many ranks.
pub(crate) fn contexts_for(
    alloc: Global,
    first: &Head,
    to: &Distribution,
    ranks: u32,
) -> Result<Contexts, AllocError>
    requires head { IsHead (head_view first.now) }
    requires most { ranks ≤ 64 }
    requires source { first.now.nprow * first.now.npcol ≤ ranks }
    requires target { to.now.nprow * to.now.npcol ≤ ranks }
    ensures { IfOk result (λ contexts. contexts ≡ dealt_grid R 1 ranks ∷
        dealt_grid R first.now.nprow first.now.npcol ∷ dealt_grid R to.now.nprow to.now.npcol ∷ []) }
{
    let Some(world) = World::new(ranks) else {
        unreachable!()
    };
    let mut contexts = Contexts::new(alloc)?;
    contexts.add(grid(alloc, &world, 1, ranks)?)?;
    contexts.add(grid(alloc, &world, first.nprow, first.npcol)?)?;
    contexts.add(grid(alloc, &world, to.nprow, to.npcol)?)?;
    Ok(contexts)
}
