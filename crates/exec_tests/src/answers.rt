//! What a program's check answers, as tests compare it.
use grid_exec::{ExecErr, ExecFault, Summary, check_program};
use grid_lang::parse_program;
use std::alloc::Global;

/// The numbers of a program that is accepted.
pub(crate) fn numbers_of(alloc: Global, text: &str) -> Option<Summary> {
    match parse_program(alloc, text.as_bytes()) {
        Ok(program) => match check_program(alloc, &program) {
            Ok(summary) => Some(summary),
            Err(_) => None,
        },
        Err(_) => None,
    }
}

/// The line and the fault of a program that is refused.
pub(crate) fn refusal_of(alloc: Global, text: &str) -> Option<(u32, ExecFault)> {
    match parse_program(alloc, text.as_bytes()) {
        Ok(program) => match check_program(alloc, &program) {
            Ok(_) => None,
            Err(ExecErr::Bad { line, fault }) => Some((line, fault)),
            Err(_) => None,
        },
        Err(_) => None,
    }
}
