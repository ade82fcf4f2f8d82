//! The arrays of all ranks, rank by rank.

ghost use Rattle.std.specs.Prelude.{◌≡◌, ℕ, ◌≤◌, ◌<◌, length, slice_index_or, IfOk, OnOk};
ghost use Rattle.std.specs.List.{AllByRecursion};
ghost use Rattle.scope_ops.specs.Lines.{numbered_from};
ghost use Rattle.pack_words.specs.GridShapes.{IsSize};
ghost use Rattle.pack_words.specs.LocalCells.{zeros};
ghost use Rattle.descriptor.specs.Good.{layout_of};
ghost use Rattle.program_meaning.specs.Declarations.{with_zeros};
ghost use Rattle.array_contents.specs.Contents.{arrays_of, HasRoomFor};
ghost use Rattle.array_contents.specs.Shares.{AreShares, IsSized, HoldRows};
ghost use Rattle.array_contents.specs.RankWords.{spread_rank, placed_rank};

use crate::Filling;
use crate::cells::set_array;
use crate::local_words::{LocalWords, Source};
use crate::shares::{Shares, words_on};
use descriptor::Spread;
use pack_words::LocalArray;
use proc_grid::Context;
use std::alloc::{AllocError, Global};

// An array of a rank, all of whose words are 0.
fn zero_array(alloc: Global, size: (u32, u32)) -> Result<LocalArray, AllocError>
    requires { IsSize size }
    ensures { IfOk result (λ a. a ≡ zeros size.0 size.1) }
{
    match LocalArray::new(alloc, size.0, size.1) {
        Ok(array) => Ok(array),
        Err(_) => Err(AllocError),
    }
}

/// One array more on every rank, of these sizes, all of whose words are 0.
#[tactic(auto, using(crate::proofs::RoomLaws::zeros_more, crate::proofs::RoomLaws::zeros_done))]
pub(crate) fn push_zeros(
    alloc: Global,
    ranks: &mut Vec<Vec<LocalArray>>,
    sizes: &[(u32, u32)],
) -> Result<(), AllocError>
    requires { AllByRecursion IsSize sizes.now }
    ensures { OnOk result (arrays_of ranks.new.items ≡ with_zeros sizes.now (arrays_of ranks.old.items)) }
{
    for rank in 0..ranks.len().min(sizes.len()) {
        let array = zero_array(alloc, sizes[rank])?;
        ranks[rank].push(array)?;
    }
    Ok(())
}

// The greater of a number and the leading dimension of a rank's array of that number.
fn longer(longest: u32, mine: &Vec<LocalArray>, array: u32) -> u32
    ensures more { longest ≤ result }
    ensures lead { array < length mine.now.items → (slice_index_or mine.now.items array (zeros 1 0)).lld ≤ result }
{
    if (array as usize) < mine.len() {
        longest.max(mine[array as usize].lld())
    } else {
        longest
    }
}

/// Room for the words of a column of each rank's array of that number.
#[tactic(auto, using(crate::proofs::RoomLaws::room_all))]
pub(crate) fn room_for(
    alloc: Global,
    ranks: &[Vec<LocalArray>],
    array: u32,
) -> Result<Vec<i32>, AllocError>
    ensures { IfOk result (λ room. HasRoomFor array (arrays_of ranks.now) (length room.items)) }
{
    let mut longest = 0;
    for rank in 0..ranks.len() {
        longest = longer(longest, &ranks[rank], array);
    }
    vec![in alloc; 0; longest as usize]
}

/// The words of an array that is spread so, on all ranks.
pub(crate) fn set_spread<'a>(
    ranks: &mut Vec<Vec<LocalArray>>,
    array: u32,
    source: &'a Source<'a>,
    shares: &'a Shares,
    spread: &Spread,
    ctx: &Context,
    room: &mut [i32],
)
    requires shares { AreShares (layout_of spread.now ctx.now) shares.now }
    requires sized { IsSized (layout_of spread.now ctx.now) source.now }
    requires hold { HoldRows (layout_of spread.now ctx.now) ctx.now array (arrays_of ranks.old.items) }
    requires room { HasRoomFor array (arrays_of ranks.old.items) (length room.old) }
    requires few { length ranks.old.items ≤ 64 }
    ensures { arrays_of ranks.new.items ≡ numbered_from 0
        (spread_rank array source.now (layout_of spread.now ctx.now) ctx.now) (arrays_of ranks.old.items) }
{
    for rank in 0..ranks.len() {
        let words = words_on(source, shares, spread, ctx, rank as u32);
        set_array(&mut ranks[rank], array, &words, room);
    }
}

/// The words of an array that isn't spread, on all ranks.
pub(crate) fn set_placed(
    ranks: &mut Vec<Vec<LocalArray>>,
    array: u32,
    filling: &Filling,
    room: &mut [i32],
)
    requires room { HasRoomFor array (arrays_of ranks.old.items) (length room.old) }
    requires few { length ranks.old.items ≤ 64 }
    ensures { arrays_of ranks.new.items ≡ numbered_from 0 (placed_rank array filling.now) (arrays_of ranks.old.items) }
{
    for rank in 0..ranks.len() {
        let words = LocalWords::Placed {
            filling: *filling,
            rank: rank as u32,
        };
        set_array(&mut ranks[rank], array, &words, room);
    }
}
