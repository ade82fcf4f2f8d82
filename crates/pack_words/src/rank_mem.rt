//! The memory of a rank.

ghost use Rattle.std.specs.Prelude.{◌≡◌, ◌≤◌, ◌<◌, ℕ, Some, length, slice_get, replicate, IfOk, MatchOption};
ghost use Rattle.pack_words.specs.Accumulators.{no_held};
ghost use Rattle.pack_words.specs.LocalCells.{IsLocalCells};

use crate::accumulator::{join_message, replace_message, write_message};
use crate::copying::copy_between;
use crate::elements::{load, store};
use crate::local_array::LocalArray;
use crate::rank_op::RankOp;
use fold_ops::Held;
use msg_core::Node;
use std::alloc::{AllocError, Global};
use std::marker::Model;

/// The local arrays of one rank, by their numbers from 0.
#[derive(Debug, Drop)]
pub struct RankMem {
    arrays: Vec<LocalArray>,
    held: Vec<Held>,
}

impl Model for RankMem {
    ghost use Rattle.pack_words.specs.RankOps.{RankState};

    ghost Value = { RankState };

    ghost view = { λ m. record { arrays = m.arrays.items; held = m.held.items } };
}

impl RankMem {
    /// A rank with these arrays and an accumulator of so many elements, all of value 0 and place 0.
    pub fn new(alloc: Global, arrays: Vec<LocalArray>, scratch: u32) -> Result<RankMem, AllocError>
        ensures arrays { IfOk result (λ m. m.arrays ≡ arrays.items) }
        ensures held { IfOk result (λ m. m.held ≡ replicate scratch no_held) }
    {
        let held = vec![in alloc; Held { value: 0, place: 0 }; scratch as usize]?;
        Ok(RankMem { arrays, held })
    }

    /// The array of that number: None exactly where there are not so many.
    pub fn array(&self, array: u32) -> Option<&LocalArray>
        ensures { MatchOption result (length self.now.arrays ≤ array)
            (λ a. slice_get self.now.arrays array ≡ Some a.now) }
    {
        self.arrays.get(array as usize)
    }
}

impl Node for RankMem {
    ghost use Rattle.pack_words.specs.RankOps.{CanDo, rank_message, rank_absorbed, rank_acted};
    ghost use Rattle.pack_words.specs.RankLaws.{can_is_well_made, message_length, can_after_absorb, can_after_act};

    type Op = RankOp;

    ghost can_do = { CanDo };

    ghost message = { rank_message };

    ghost absorbed = { rank_absorbed };

    ghost acted = { rank_acted };

    ghost can_is_well_made = { can_is_well_made };

    ghost message_length = { message_length };

    ghost can_after_absorb = { can_after_absorb };

    ghost can_after_act = { can_after_act };

    fn emit(&self, op: &RankOp, out: &mut [i32]) {
        if let RankOp::Put {
            to: _,
            array,
            regions,
            cut,
        } = op
        {
            regions.pack(&self.arrays[*array as usize], cut, out);
        } else if let RankOp::PutAcc { to: _, len, pairs } = op {
            write_message(&self.held, *len, *pairs, out);
        }
    }

    fn absorb(&mut self, op: &RankOp, words: &[i32]) {
        if let RankOp::Get {
            from: _,
            array,
            regions,
            cut,
        } = op
        {
            regions.unpack(&mut self.arrays[*array as usize], cut, words);
        } else if let RankOp::JoinAcc { from: _, len, fold } = op {
            join_message(&mut self.held, *len, *fold, words);
        } else if let RankOp::GetAcc {
            from: _,
            len,
            pairs,
        } = op
        {
            replace_message(&mut self.held, *len, *pairs, words);
        }
    }

    fn act(&mut self, op: &RankOp) {
        if let RankOp::Copy {
            from_array,
            from_regions,
            to_array,
            to_regions,
            cut,
        } = op
        {
            copy_between(
                &mut self.arrays,
                *from_array as usize,
                from_regions.regions(),
                *to_array as usize,
                to_regions.regions(),
                cut,
            );
        } else if let RankOp::LoadAcc {
            array,
            region,
            place,
        } = op
        {
            load(&self.arrays, *array, region, *place, &mut self.held);
        } else if let RankOp::StoreAcc {
            array,
            region,
            coords,
        } = op
        {
            store(&self.held, &mut self.arrays, *array, region, coords);
        }
    }
}
