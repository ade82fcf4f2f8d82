//! Why planning stops at a line.

ghost use Rattle.std.specs.Prelude.{◌≡◌};
ghost use Rattle.line_plans.specs.Halts.{scope_halt_of};

use program_meaning::ExecFault;
use scope_ops::ScopeErr;

/// Why planning stops at a line.
#[derive(Clone, Copy, Debug, PartialEq, Eq)]
pub enum Halt {
    Fault(ExecFault),
    NoMemory,
}

/// A scope call's refusal as that of its line.
pub(crate) fn scope_halt(e: ScopeErr) -> Halt
    ensures { result ≡ scope_halt_of e }
{
    match e {
        ScopeErr::NoMemory => Halt::NoMemory,
        other => Halt::Fault(ExecFault::Scope(other)),
    }
}
