//! What a text is read to, as tests compare it.
use grid_lang::{LangErr, LangFault, Numbered, parse_program};
use std::alloc::{AllocError, Global};

/// The number of lines of a program that is accepted.
pub(crate) fn lines_of(alloc: Global, text: &[u8]) -> Option<usize> {
    match parse_program(alloc, text) {
        Ok(program) => Some(program.lines().len()),
        Err(_) => None,
    }
}

/// The line and the fault of a text that is refused.
pub(crate) fn fault_of(alloc: Global, text: &[u8]) -> Option<(u32, LangFault)> {
    match parse_program(alloc, text) {
        Ok(_) => None,
        Err(LangErr::Bad { line, what }) => Some((line, what)),
        Err(LangErr::NoMemory) => None,
    }
}

// The number of a line and what it says.
fn text_of(alloc: Global, line: &Numbered) -> Result<String, AllocError> {
    format!(in alloc; "{} {:?}", line.number, line.line)
}

/// Whether the last line of a program is this one, with its number.
pub(crate) fn ends_with(alloc: Global, text: &[u8], wanted: &str) -> Result<bool, AllocError> {
    match parse_program(alloc, text) {
        Ok(program) => match program.lines().last() {
            Some(line) => Ok(text_of(alloc, line)?.as_str() == wanted),
            None => Ok(false),
        },
        Err(_) => Ok(false),
    }
}

/// Some text, and a line after it.
pub(crate) fn with_line(alloc: Global, text: &str, line: &str) -> Result<String, AllocError> {
    format!(in alloc; "{text}{line}\n")
}
