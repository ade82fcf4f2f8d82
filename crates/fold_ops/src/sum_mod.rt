//! The sum of the members' words, as IGSUM2D of the BLACS gives it.
use crate::{Combine, Held};

/// The sum modulo 2^32, in two's complement. The place is the lesser.
pub struct SumMod;

impl Combine for SumMod {
    ghost use Rattle.fold_ops.specs.Join.{sum_joined};
    ghost use Rattle.fold_ops.specs.Fold.{IsSumFold};
    ghost use Rattle.fold_ops.specs.SumLaws.{sum_commutative, sum_associative, sum_gives_fold};

    ghost joined = { sum_joined };

    ghost is_fold = { IsSumFold };

    ghost commutative = { sum_commutative };

    ghost associative = { sum_associative };

    ghost gives_fold = { sum_gives_fold };

    fn join(a: Held, b: Held) -> Held {
        Held {
            value: a.value.wrapping_add(b.value),
            place: a.place.min(b.place),
        }
    }
}
