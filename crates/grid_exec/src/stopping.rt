//! Why planning stops.

ghost use Rattle.std.specs.Prelude.{◌≡◌};
ghost use Rattle.grid_exec.specs.Planning.{stop_of};

use crate::err::ExecErr;
use line_plans::Halt;

// Why planning stops at a line of this number.
pub(crate) fn stopped(line: u32, halt: Halt) -> ExecErr
    ensures { result ≡ stop_of line halt }
{
    match halt {
        Halt::Fault(fault) => ExecErr::Bad { line, fault },
        Halt::NoMemory => ExecErr::NoMemory,
    }
}
