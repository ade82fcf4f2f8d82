//! A program begins.

ghost use Rattle.std.specs.Prelude.{◌≡◌, ◌<◌, ◌≤◌, [], replicate, IfOk};
ghost use Rattle.line_plans.specs.Standing.{IsBegun};

use crate::held::Held;
use array_contents::ArrayContents;
use line_plans::Declared;
use std::alloc::{AllocError, Global};

// So many ranks without arrays.
#[tactic(auto, using(crate::proofs::Beginnings::none_held))]
pub(crate) fn begin(alloc: Global, ranks: u32) -> Result<Held, AllocError>
    requires some { 0 < ranks }
    requires most { ranks ≤ 64 }
    ensures begun { IfOk result (λ h. IsBegun h.declared ranks) }
    ensures none { IfOk result (λ h. h.contents ≡ replicate ranks []) }
{
    let declared = Declared::new(alloc, ranks)?;
    let contents = ArrayContents::new(alloc, ranks)?;
    Ok(Held { declared, contents })
}
