//! The arrays of all ranks.

ghost use Rattle.std.specs.Prelude.{◌≡◌, ℕ, ◌≤◌, [], length, map, replicate, IfOk, OnOk, OnErr};
ghost use Rattle.std.specs.List.{AllByRecursion};
ghost use Rattle.pack_words.specs.GridShapes.{IsSize};
ghost use Rattle.descriptor.specs.Bounds.{part};
ghost use Rattle.descriptor.specs.Good.{IsGood};
ghost use Rattle.mr2d.specs.Homes.{HaveArrays};
ghost use Rattle.mr2d.specs.Calls.{spread_array};
ghost use Rattle.mm_text.specs.Loading.{matrix_of};
ghost use Rattle.program_meaning.specs.Declarations.{with_zeros};
ghost use Rattle.program_meaning.specs.Filling.{fills_array, fills_matrix, loads_matrix};
ghost use Rattle.array_contents.specs.Columns.{filling_of};
ghost use Rattle.array_contents.specs.Contents.{arrays_of, Writes, HaveLead};

use crate::Filling;
use crate::local_words::Source;
use crate::ranks::{push_zeros, room_for, set_placed, set_spread};
use crate::shares::shares_of;
use descriptor::Spread;
use mm_text::Whole;
use pack_words::LocalArray;
use proc_grid::Context;
use std::alloc::{AllocError, Global};
use std::marker::Model;

/// The local arrays of every rank, by their numbers from 0.
#[derive(Debug, Drop)]
pub struct ArrayContents {
    ranks: Vec<Vec<LocalArray>>,
}

impl Model for ArrayContents {
    ghost use Rattle.std.specs.Prelude.{List};
    ghost use Rattle.pack_words.specs.LocalCells.{LocalCells};
    ghost use Rattle.array_contents.specs.Contents.{arrays_of};

    ghost Value = { List (List LocalCells) };

    ghost view = { λ c. arrays_of c.ranks.items };
}

// So many ranks without arrays.
fn no_arrays(alloc: Global, count: u32) -> Result<Vec<Vec<LocalArray>>, AllocError>
    ensures { IfOk result (λ v. arrays_of v.items ≡ replicate count []) }
{
    let mut ranks = Vec::with_capacity(alloc, count as usize)?;
    for _rank in 0..count {
        ranks.push(Vec::new(alloc))?;
    }
    Ok(ranks)
}

impl ArrayContents {
    /// So many ranks, none of which has an array.
    pub fn new(alloc: Global, ranks: u32) -> Result<ArrayContents, AllocError>
        ensures { IfOk result (λ c. c ≡ replicate ranks []) }
    {
        Ok(ArrayContents {
            ranks: no_arrays(alloc, ranks)?,
        })
    }

    /// The same with one array more on every rank, of this leading dimension and these columns by rank, all of whose
    /// words are 0. The arrays are let go where memory is wanted.
    pub fn with_array(
        self,
        alloc: Global,
        sizes: &[(u32, u32)],
    ) -> Result<ArrayContents, AllocError>
        requires { AllByRecursion IsSize sizes.now }
        ensures { IfOk result (λ c. c ≡ with_zeros sizes.now self) }
    {
        let ArrayContents { mut ranks } = self;
        push_zeros(alloc, &mut ranks, sizes)?;
        Ok(ArrayContents { ranks })
    }

    /// FILL of an ARRAY, which is spread so over that grid: the element of row i and column j of the matrix, counted from
    /// 0, is a + b i + c j modulo 2^32, and every other word of the array is d.
    pub fn fill_array(
        &mut self,
        alloc: Global,
        array: u32,
        spread: &Spread,
        ctx: &Context,
        filling: &Filling,
    ) -> Result<(), AllocError>
        requires good { IsGood spread.now ctx.now }
        requires arrays { HaveArrays (spread_array array spread.now ctx.now) self.old }
        requires few { length self.old ≤ 64 }
        ensures filled { OnOk result (Writes array
            (fills_array (filling_of filling.now) (spread_array array spread.now ctx.now)) self.old self.new) }
        ensures refused { OnErr result (self.new ≡ self.old) }
    {
        let shares = shares_of(alloc, spread, ctx)?;
        let mut room = room_for(alloc, &self.ranks, array)?;
        let source = Source::Fill(*filling);
        set_spread(
            &mut self.ranks,
            array,
            &source,
            &shares,
            spread,
            ctx,
            &mut room,
        );
        Ok(())
    }

    /// LOAD of an ARRAY, which is spread so over that grid: its elements are those of the matrix, which has its size, and
    /// every other word stays.
    pub fn load_matrix(
        &mut self,
        alloc: Global,
        array: u32,
        spread: &Spread,
        ctx: &Context,
        whole: &Whole,
    ) -> Result<(), AllocError>
        requires good { IsGood spread.now ctx.now }
        requires arrays { HaveArrays (spread_array array spread.now ctx.now) self.old }
        requires rows { whole.now.rows ≡ part spread.now.desc.m }
        requires columns { whole.now.columns ≡ part spread.now.desc.n }
        requires few { length self.old ≤ 64 }
        ensures loaded { OnOk result (Writes array
            (loads_matrix (matrix_of whole.now) (spread_array array spread.now ctx.now)) self.old self.new) }
        ensures refused { OnErr result (self.new ≡ self.old) }
    {
        let shares = shares_of(alloc, spread, ctx)?;
        let mut room = room_for(alloc, &self.ranks, array)?;
        let source = Source::Load(whole);
        set_spread(
            &mut self.ranks,
            array,
            &source,
            &shares,
            spread,
            ctx,
            &mut room,
        );
        Ok(())
    }

    /// FILL of a MATRIX, which has that leading dimension on every rank: the word of row i and column j on rank r, all
    /// counted from 0, is a + b i + c j + d r modulo 2^32.
    pub fn fill_matrix(
        &mut self,
        alloc: Global,
        array: u32,
        lld: u32,
        filling: &Filling,
    ) -> Result<(), AllocError>
        requires lead { HaveLead array lld self.old }
        requires few { length self.old ≤ 64 }
        ensures filled { OnOk result (Writes array (fills_matrix (filling_of filling.now) lld) self.old self.new) }
        ensures refused { OnErr result (self.new ≡ self.old) }
    {
        let mut room = room_for(alloc, &self.ranks, array)?;
        set_placed(&mut self.ranks, array, filling, &mut room);
        Ok(())
    }

    /// The arrays by rank; no memory is taken.
    pub fn into_ranks(self) -> Vec<Vec<LocalArray>>
        ensures { map (λ mine. mine.items) result.items ≡ self }
    {
        self.ranks
    }
}
