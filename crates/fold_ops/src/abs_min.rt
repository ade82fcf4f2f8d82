//! The word of least absolute value, as IGAMN2D of the BLACS gives it.
use crate::ties::tie_order;
use crate::{Combine, Held};

/// The word of lesser absolute value, with its sign; then that of lesser place; then the greater word.
///
/// Absolute values are whole numbers, so that of -2147483648 is 2147483648. The answer is one of the two.
pub struct AbsMin;

impl Combine for AbsMin {
    ghost use Rattle.fold_ops.specs.Join.{min_joined};
    ghost use Rattle.fold_ops.specs.Fold.{IsMinFold};
    ghost use Rattle.fold_ops.specs.OrderLaws.{min_commutative, min_associative, min_gives_fold};

    ghost joined = { min_joined };

    ghost is_fold = { IsMinFold };

    ghost commutative = { min_commutative };

    ghost associative = { min_associative };

    ghost gives_fold = { min_gives_fold };

    fn join(a: Held, b: Held) -> Held {
        let by_size = a.value.unsigned_abs().cmp(&b.value.unsigned_abs());
        if by_size.then(tie_order(a, b)).is_gt() {
            b
        } else {
            a
        }
    }
}
