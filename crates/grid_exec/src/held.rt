//! What is declared, with the arrays of all ranks.

ghost use Rattle.grid_exec.specs.Holding.{HoldsArrays};

use array_contents::ArrayContents;
use line_plans::Declared;

// What is declared, and the words of the arrays of all ranks, each of its size.
#[derive(Debug, Drop)]
pub(crate) struct Held {
    pub(crate) declared: Declared,
    pub(crate) contents: ArrayContents,
    ghost holds: { HoldsArrays declared.shapes contents },
}
