//! Why a trial gives no memories.

ghost use Rattle.std.specs.Prelude.{◌≡◌};
ghost use Rattle.scope_tests.specs.declared.trouble.Trouble.TheVariants.{Memory, Refused};

use scope_ops::ScopeErr;
use std::alloc::{AllocError, AllocFailed};

/// Out of memory, a trial that asks for what isn't there, or a refusal of the call.
#[derive(Clone, Copy, Debug, PartialEq, Eq)]
pub enum Trouble {
    Memory,
    Case,
    Refused(ScopeErr),
}

impl From<ScopeErr> for Trouble {
    ghost from_gives = { λ e t. t ≡ Refused e };

    fn from(e: ScopeErr) -> Trouble {
        Trouble::Refused(e)
    }
}

impl From<AllocError> for Trouble {
    ghost from_gives = { λ _ e. e ≡ Memory };

    fn from(_: AllocError) -> Trouble {
        Trouble::Memory
    }
}

impl<T: Drop> From<AllocFailed<T>> for Trouble {
    ghost from_gives = { λ _ e. e ≡ Memory };

    fn from(_: AllocFailed<T>) -> Trouble {
        Trouble::Memory
    }
}
