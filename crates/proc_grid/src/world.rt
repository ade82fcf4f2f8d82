//! The ranks of a program, and the order in which a grid deals them out.

ghost use Rattle.std.specs.Prelude.{◌≡◌, ◌<◌, ◌≤◌, MatchOption, ◌⊎◌};
ghost use Rattle.proc_grid.specs.Refusals.{order_of};

// The most ranks that a world has, and the most process rows or columns that a grid has.
pub(crate) const MOST: u32 = 64;

/// A world of 1 to 64 ranks, numbered from 0.
#[derive(Clone, Copy, Debug, PartialEq, Eq)]
pub struct World {
    pub ranks: u32,
    ghost some: { 0 < ranks },
    ghost few: { ranks ≤ 64 },
}

impl World {
    /// A world of so many ranks. None exactly where `ranks` is 0 or above 64.
    pub fn new(ranks: u32) -> Option<World>
        ensures { MatchOption result ((ranks ≡ 0) ⊎ (64 < ranks)) (λ world. world.ranks ≡ ranks) }
    {
        if ranks == 0 || ranks > MOST {
            None
        } else {
            Some(World { ranks })
        }
    }
}

/// How a grid deals out its ranks: by rows or by columns.
#[derive(Clone, Copy, Debug, PartialEq, Eq)]
pub enum Order {
    R,
    C,
}

impl Order {
    /// The order that a letter names, in either case. None exactly where `c` isn't one of R, r, C and c.
    pub fn read(c: char) -> Option<Order>
        ensures { result ≡ order_of c }
    {
        match c {
            'R' | 'r' => Some(Order::R),
            'C' | 'c' => Some(Order::C),
            _ => None,
        }
    }
}
