//! The answers of the commands as plain moves.
ghost use Rattle.tool_laws.specs.ByMoves.{AreMoves};

/// What `split`, `join` and `move` save is what the one plain move makes of what they read: a file's matrix lies on a grid
/// of one process, and pieces lie on theirs. ScaLAPACK REDIST, PIGEMR2D.
#[tactic(auto, using(crate::proofs::MovedPieces::are_moves))]
pub fn commands_are_moves()
    ensures { AreMoves }
{}
