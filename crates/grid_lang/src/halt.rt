//! Why reading stops.

use crate::fault::LangFault;
use std::alloc::AllocError;

/// A fault of the line that is read, or out of memory.
#[derive(Drop)]
pub(crate) enum Halt {
    Bad(LangFault),
    NoMemory,
}

impl From<LangFault> for Halt {
    ghost use Rattle.std.specs.Prelude.{◌≡◌};
    ghost use Rattle.grid_lang.specs.declared.halt.Halt.TheVariants.{Bad};

    ghost from_gives = { λ fault halt. halt ≡ Bad fault };

    fn from(fault: LangFault) -> Halt {
        Halt::Bad(fault)
    }
}

impl From<AllocError> for Halt {
    ghost use Rattle.std.specs.Prelude.{◌≡◌};
    ghost use Rattle.grid_lang.specs.declared.halt.Halt.TheVariants.{NoMemory};

    ghost from_gives = { λ refused halt. halt ≡ NoMemory };

    fn from(_refused: AllocError) -> Halt {
        Halt::NoMemory
    }
}
