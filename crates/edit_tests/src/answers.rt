//! What the tool has to answer.
use crate::lines::Stop;
use std::alloc::{AllocError, Global};

/// What a run leaves: its status, the file that it saves (empty where it saves none), and its line on the error stream.
#[derive(Drop)]
pub(crate) struct Answer {
    pub(crate) status: u8,
    pub(crate) saved: String,
    pub(crate) told: String,
}

/// The answer where the reading of a file stops.
pub(crate) fn stopped(alloc: Global, name: &str, stop: Stop) -> Result<Answer, AllocError> {
    let (status, told) = match stop {
        Stop::Refused(line, text) => {
            (
                1,
                format!(in alloc; "gridtool: {name}: line {line}: {text}\n")?,
            )
        }
        Stop::Missing => (3, format!(in alloc; "gridtool: {name}: missing\n")?),
        Stop::NoMemory => return Err(AllocError),
    };
    Ok(Answer {
        status,
        saved: String::new(alloc),
        told,
    })
}

/// The answer where a file is saved.
pub(crate) fn done(alloc: Global, saved: String) -> Answer {
    Answer {
        status: 0,
        saved,
        told: String::new(alloc),
    }
}
