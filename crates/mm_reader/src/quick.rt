//! The quick way to a value.
ghost use Rattle.std.specs.Prelude.{◌≡◌, None, IfSome};
ghost use Rattle.mm_reader.specs.Taking.{TakesValue};

use crate::short::short_value;
use text_io::Reader;

/// Takes the next line where it is a value other than -2147483648 and lies whole in the window, as most do.
#[inline]
pub(crate) fn take_short_value(reader: &mut Reader) -> Option<i32>
    ensures value { IfSome result (λ v. TakesValue reader.old reader.new v) }
    ensures none { result ≡ None → reader.new ≡ reader.old }
{
    let (value, used) = short_value(reader.at_hand())?;
    if !reader.take_at_hand(used) {
        return None;
    }
    Some(value)
}
