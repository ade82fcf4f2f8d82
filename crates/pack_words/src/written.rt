//! What is written of an element of the accumulator.

ghost use Rattle.std.specs.Prelude.{◌≡◌, ◌<◌};
ghost use Rattle.pack_words.specs.Coordinates.{written_word, HasColumns};

use crate::coords::{Coords, coordinates};
use fold_ops::Held;

/// The element's value, or the row or the column of the member that held it.
#[derive(Clone, Copy, Debug)]
pub enum Written {
    Value,
    RowOf(Coords),
    ColumnOf(Coords),
}

/// The word that is written for the element.
#[inline]
pub fn word_of(written: &Written, held: Held) -> i32
    requires { HasColumns written.now }
    ensures { result ≡ written_word written.now held }
{
    match written {
        Written::Value => held.value,
        Written::RowOf(coords) => coordinates(coords, held.place).0.cast_signed(),
        Written::ColumnOf(coords) => coordinates(coords, held.place).1.cast_signed(),
    }
}
