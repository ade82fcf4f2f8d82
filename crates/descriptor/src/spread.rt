//! A spread matrix: its descriptor, and the leading dimension on each process.

ghost use Rattle.std.specs.Prelude.{◌≡◌};

use crate::Desc;
use std::marker::Model;

/// A descriptor with the leading dimension of each process of its grid. The descriptor's own `lld` isn't looked at.
#[derive(Debug, Drop)]
pub struct Spread {
    pub desc: Desc,
    pub llds: Llds,
}

/// The leading dimension of each process of a grid, in row-major order.
#[derive(Debug, Drop)]
pub struct Llds {
    list: Vec<i64>,
}

impl Model for Llds {
    ghost use Rattle.std.specs.Prelude.{List, ℤ};

    ghost Value = { List ℤ };

    ghost view = { λ l. l.list.items };
}

impl Llds {
    /// The list as it is; nothing is refused and no memory is taken.
    pub fn new(list: Vec<i64>) -> Llds
        ensures { result ≡ list.items }
    {
        Llds { list }
    }

    /// Gives the list back; no memory is taken.
    pub fn into_vec(self) -> Vec<i64>
        ensures { result.items ≡ self }
    {
        self.list
    }

    /// The leading dimensions as a slice.
    pub fn as_slice(&self) -> &[i64]
        ensures { result.now ≡ self.now }
    {
        &self.list
    }
}
