//! Texts with drawn edits.
use crate::lines::lines_of;
use std::alloc::{AllocError, Global};

/// Numbers that a seed draws.
#[derive(Drop)]
pub(crate) struct Draws {
    state: u64,
}

impl Draws {
    pub(crate) fn new(seed: u64) -> Draws {
        Draws { state: seed }
    }

    /// The next number below a bound, 0 where the bound is 0.
    pub(crate) fn below(&mut self, bound: usize) -> usize {
        self.state = self
            .state
            .wrapping_mul(6_364_136_223_846_793_005)
            .wrapping_add(1_442_695_040_888_963_407);
        let drawn = (self.state >> 33) as usize;
        drawn.checked_rem(bound).unwrap_or(0)
    }

    /// The next one of some texts.
    pub(crate) fn one_of(&mut self, texts: &[&'static str]) -> &'static str {
        let drawn = self.below(texts.len());
        texts.get(drawn).copied().unwrap_or("")
    }
}

// Bytes that texts of files and words have, and some that they haven't.
static BYTES: [u8; 32] = *b"0123456789 -+%=.\n\r\tx/M_\x00\x01\x0b\x1f\x7f-1 2";

// The text with other bytes in the place of the one at a place.
fn with_bytes(alloc: Global, text: &[u8], at: usize, bytes: &[u8]) -> Result<Vec<u8>, AllocError> {
    let mut edited = Vec::new(alloc);
    for (k, byte) in text.iter().enumerate() {
        if k == at {
            edited.extend_from_slice(bytes)?;
        } else {
            edited.push(*byte)?;
        }
    }
    Ok(edited)
}

// The text with two of its lines exchanged.
fn exchanged(alloc: Global, text: &[u8], one: usize, other: usize) -> Result<Vec<u8>, AllocError> {
    let lines = lines_of(alloc, text)?;
    let mut edited = Vec::new(alloc);
    for k in 0..lines.len() {
        let from = if k == one {
            other
        } else if k == other {
            one
        } else {
            k
        };
        if let Some(line) = lines.get(from) {
            edited.extend_from_slice(line)?;
            edited.push(b'\n')?;
        }
    }
    Ok(edited)
}

// The text with one drawn edit: a byte changed, dropped or doubled, or two lines exchanged.
fn edited(alloc: Global, draws: &mut Draws, text: &[u8]) -> Result<Vec<u8>, AllocError> {
    let at = draws.below(text.len());
    let byte = text.get(at).copied().unwrap_or(b'1');
    match draws.below(5) {
        0 => with_bytes(alloc, text, at, &[]),
        1 => with_bytes(alloc, text, at, &[byte, byte]),
        2 => {
            let count = text.iter().filter(|byte| **byte == b'\n').count();
            let (one, other) = (draws.below(count), draws.below(count));
            exchanged(alloc, text, one, other)
        }
        _ => {
            let drawn = draws.below(BYTES.len());
            let new = BYTES.get(drawn).copied().unwrap_or(b'1');
            with_bytes(alloc, text, at, &[new])
        }
    }
}

/// The text with one to three drawn edits.
pub(crate) fn edited_text(
    alloc: Global,
    draws: &mut Draws,
    text: &[u8],
) -> Result<Vec<u8>, AllocError> {
    let mut now = edited(alloc, draws, text)?;
    for _ in 0..draws.below(3) {
        now = edited(alloc, draws, &now)?;
    }
    Ok(now)
}
