//! Words that are drawn from a seed.

ghost use Rattle.std.specs.Prelude.{◌≡◌, ℕ, ◌/◌, ◌^◌, pos, IfOk};
ghost use Rattle.std.specs.Int.{int_wrap, w32};
ghost use Rattle.msg_core.specs.Drawn.{next_state as state_next};
ghost use Rattle.drawn_jobs.specs.Drawing.{drawn_words};

use std::alloc::{AllocError, Global};

const FACTOR: u64 = 6_364_136_223_846_793_005;

const ADDEND: u64 = 1_442_695_040_888_963_407;

// The state of the generator after this one.
#[inline]
fn next_state(state: u64) -> u64
    ensures { result ≡ state_next state }
{
    state.wrapping_mul(FACTOR).wrapping_add(ADDEND)
}

// The upper half of a state, in two's complement.
#[inline]
fn upper_half(state: u64) -> i32
    ensures { result ≡ int_wrap w32 (pos (state / 2 ^ 32)) }
{
    ((state >> 32) as u32).cast_signed()
}

/// The first numbers that are drawn from a seed, so many.
pub(crate) fn draw(alloc: Global, seed: u64, count: u32) -> Result<Vec<i32>, AllocError>
    ensures { IfOk result (λ v. v.items ≡ drawn_words seed count) }
{
    let mut words = Vec::with_capacity(alloc, count as usize)?;
    let mut state = seed;
    for _k in 0..count {
        state = next_state(state);
        words.push(upper_half(state))?;
    }
    Ok(words)
}
