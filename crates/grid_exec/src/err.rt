//! Why a program isn't planned.

use mm_text::LoadErr;
use piece_file::Name;
use program_meaning::ExecFault;

/// Why a program isn't planned: its first refused line with its fault, the file of a LOAD line, or out of memory.
#[derive(Debug, Drop)]
pub enum ExecErr {
    Bad { line: u32, fault: ExecFault },
    Load { name: Name, err: LoadErr },
    NoMemory,
}
