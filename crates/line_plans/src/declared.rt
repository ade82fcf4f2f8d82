//! What a program has declared.

ghost use Rattle.std.specs.Prelude.{◌≡◌, ◌<◌, ◌≤◌, ◌^◌, ℕ, pos, length, slice_get, slice_index, Some};
ghost use Rattle.proc_grid.specs.Grid.{IsGrid};
ghost use Rattle.proc_grid.specs.Held.{context_at};
ghost use Rattle.descriptor.specs.declared.spread.Spread.{Spread as SpreadOf};
ghost use Rattle.program_meaning.specs.Sound.{IsSound};

use descriptor::Spread;
use pack_words::Shapes;
use proc_grid::{Context, Contexts};

/// The grids, the sizes of the arrays on every rank, how each array is spread, and the words of all arrays.
#[derive(Debug, Drop)]
pub struct Declared {
    pub contexts: Contexts,
    pub shapes: Shapes,
    pub spreads: Vec<Option<Spread>>,
    pub words: u64,
    pub ghost sound: { IsSound contexts shapes spreads.items },
    pub ghost few: { words ≤ 2 ^ 26 },
}

impl Declared {
    /// The declared grid of that number. Its ranks are of the world.
    #[tactic(auto, using(crate::proofs::KnownLaws::not_held))]
    pub fn grid(&self, number: u32) -> &Context
        requires { number < length self.now.contexts }
        ensures is { context_at self.now.contexts (pos number) ≡ Some result.now }
        ensures grid { IsGrid result.now }
        ensures within { (k : ℕ) → k < length result.now.ranks → slice_index result.now.ranks k < self.now.shapes.ranks }
    {
        match self.contexts.get(number as i64) {
            Some(ctx) => ctx,
            None => unreachable!(),
        }
    }

    /// How the ARRAY of that number is spread.
    pub fn spread(&self, array: u32) -> &Spread
        requires { (s : SpreadOf) × (slice_get self.now.spreads.items array ≡ Some (Some s)) }
        ensures { slice_get self.now.spreads.items array ≡ Some (Some result.now) }
    {
        match self.spreads.get(array as usize) {
            Some(Some(spread)) => spread,
            _ => unreachable!(),
        }
    }
}
