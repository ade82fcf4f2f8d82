//! At which of several texts a store failed.
use thiserror::Error;

/// The store failed at a text; the texts are counted from 0.
#[derive(Clone, Copy, Debug, PartialEq, Eq, Error)]
#[error("the store failed at save {save}")]
pub struct SaveErr {
    pub save: u32,
}
