//! The parts of a grid program.
ghost use Rattle.std.specs.Prelude.{◌≡◌};
ghost use Rattle.grid_lang.specs.Parts.{may_stand, reached_by};

/// What may come next.
#[derive(Clone, Copy, Debug, PartialEq, Eq)]
pub(crate) enum Part {
    /// The line of RANKS.
    Opening,
    /// Declarations, and what may stand after them.
    Declarations,
    /// Exchanges and results.
    Exchanges,
    /// Results only.
    Results,
}

/// Whether a line of a part may stand where so much was reached.
pub(crate) fn stands(reached: Part, part: Part) -> bool
    ensures { result ≡ may_stand reached part }
{
    match reached {
        Part::Opening => matches!(part, Part::Opening),
        Part::Declarations => !matches!(part, Part::Opening),
        Part::Exchanges => matches!(part, Part::Exchanges | Part::Results),
        Part::Results => matches!(part, Part::Results),
    }
}

/// What is reached after a line of a part.
pub(crate) fn reached_after(part: Part) -> Part
    ensures { result ≡ reached_by part }
{
    match part {
        Part::Opening => Part::Declarations,
        Part::Declarations => Part::Declarations,
        Part::Exchanges => Part::Exchanges,
        Part::Results => Part::Results,
    }
}
