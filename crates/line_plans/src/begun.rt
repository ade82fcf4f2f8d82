//! A program begins.

ghost use Rattle.std.specs.Prelude.{◌≡◌, ◌<◌, ◌≤◌, ◌^◌, [], IfOk};
ghost use Rattle.line_plans.specs.Standing.{IsBegun};

use crate::declared::Declared;
use pack_words::Shapes;
use proc_grid::Contexts;
use std::alloc::{AllocError, Global};

impl Declared {
    /// So many ranks, of which nothing is declared.
    #[tactic(auto, using(crate::proofs::SoundLaws::none_sound))]
    pub fn new(alloc: Global, ranks: u32) -> Result<Declared, AllocError>
        requires some { 0 < ranks }
        requires most { ranks ≤ 64 }
        ensures { IfOk result (λ d. IsBegun d ranks) }
    {
        let contexts = Contexts::new(alloc)?;
        let shapes = Shapes::new(alloc, ranks)?;
        Ok(Declared {
            contexts,
            shapes,
            spreads: Vec::new(alloc),
            words: 0,
        })
    }
}
