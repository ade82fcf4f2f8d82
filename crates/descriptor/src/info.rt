//! INFO, the number of a bad argument.

ghost use Rattle.std.specs.Prelude.{◌≡◌, ◌≤◌};
ghost use Rattle.descriptor.specs.InfoOf.{info_number};

/// The number of the first bad argument: `-i` for argument i, and `-(100 * i + j)` for entry j of the descriptor that
/// is argument i. ScaLAPACK Users' Guide, "Error Handling".
#[derive(Clone, Copy, Debug, PartialEq, Eq)]
pub struct Info(pub i32);

// The number of a place.
pub(crate) fn number(place: u32) -> Info
    requires { place ≤ 2000 }
    ensures { result ≡ info_number place }
{
    Info(-(place as i32))
}
