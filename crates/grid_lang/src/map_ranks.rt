//! The ranks of a grid that a MAP line lists.
ghost use Rattle.std.specs.Prelude.{◌≡◌};

use std::marker::Model;

/// The ranks of a MAP line, row by row: contracts see them as a list.
#[derive(Debug, Drop)]
pub struct MapRanks {
    ranks: Vec<u32>,
}

impl Model for MapRanks {
    ghost use Rattle.std.specs.Prelude.{ℕ, List};

    ghost Value = { List ℕ };

    ghost view = { λ m. m.ranks.items };
}

impl MapRanks {
    pub(crate) fn new(ranks: Vec<u32>) -> MapRanks
        ensures { result ≡ ranks.items }
    {
        MapRanks { ranks }
    }

    /// The ranks.
    pub fn as_slice(&self) -> &[u32]
        ensures { result.now ≡ self.now }
    {
        self.ranks.as_slice()
    }
}
