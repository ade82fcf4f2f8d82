//! The word of greatest absolute value, as IGAMX2D of the BLACS gives it.
use crate::ties::tie_order;
use crate::{Combine, Held};

/// The word of greater absolute value, with its sign; then that of lesser place; then the greater word.
///
/// Absolute values are whole numbers, so that of -2147483648 is 2147483648. The answer is one of the two.
pub struct AbsMax;

impl Combine for AbsMax {
    ghost use Rattle.fold_ops.specs.Join.{max_joined};
    ghost use Rattle.fold_ops.specs.Fold.{IsMaxFold};
    ghost use Rattle.fold_ops.specs.OrderLaws.{max_commutative, max_associative, max_gives_fold};

    ghost joined = { max_joined };

    ghost is_fold = { IsMaxFold };

    ghost commutative = { max_commutative };

    ghost associative = { max_associative };

    ghost gives_fold = { max_gives_fold };

    fn join(a: Held, b: Held) -> Held {
        let by_size = b.value.unsigned_abs().cmp(&a.value.unsigned_abs());
        if by_size.then(tie_order(a, b)).is_gt() {
            b
        } else {
            a
        }
    }
}
