//! The kinds of lines.

ghost use Rattle.std.specs.Prelude.{◌≡◌};
ghost use Rattle.line_plans.specs.Kinds.{kind_of_line};

use grid_lang::Line;

/// What a line does: it tells the number of ranks, declares a grid or an array, sets the words of an array, exchanges words
/// between ranks, or tells what is to be written.
#[derive(Clone, Copy, Debug, PartialEq, Eq)]
pub enum Kind {
    World,
    Declaration,
    Words,
    Exchange,
    Outcome,
}

/// The kind of a line.
pub fn kind_of(line: &Line) -> Kind
    ensures { result ≡ kind_of_line line.now }
{
    match line {
        Line::Ranks { .. } => Kind::World,
        Line::Grid { .. } | Line::Map { .. } | Line::Array { .. } | Line::Matrix { .. } => {
            Kind::Declaration
        }
        Line::Load { .. } | Line::Fill { .. } => Kind::Words,
        Line::Save { .. }
        | Line::SavePieces { .. }
        | Line::PrintArray { .. }
        | Line::PrintMatrix { .. } => Kind::Outcome,
        _ => Kind::Exchange,
    }
}
