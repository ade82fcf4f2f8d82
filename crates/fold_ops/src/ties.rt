//! Which of two words of one absolute value comes first.
ghost use Rattle.std.specs.Prelude.{◌≡◌};
ghost use Rattle.fold_ops.specs.Join.{by_tie};

use crate::Held;
use std::cmp::Ordering;

/// That of lesser place; then the greater word.
pub(crate) fn tie_order(a: Held, b: Held) -> Ordering
    ensures { result ≡ by_tie a b }
{
    a.place.cmp(&b.place).then(b.value.cmp(&a.value))
}
