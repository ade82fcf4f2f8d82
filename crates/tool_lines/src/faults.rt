//! What is said of a fault in a file.
ghost use Rattle.std.specs.Prelude.{◌≡◌, map};
ghost use Rattle.mm_reader.specs.Views.{fault_of};
ghost use Rattle.piece_file.specs.FaultView.{fault_view};
ghost use Rattle.tool_lines.specs.Saying.{part_text};
ghost use Rattle.tool_lines.specs.Texts.{joined};
ghost use Rattle.tool_lines.specs.FaultTexts.{matrix_fault_text, piece_fault_text};

use crate::line::Part::{Count, Info, Text, Words};
use crate::phrase::{Phrase, four, one, two};
use mm_reader::MmFault;
use piece_file::PieceFault;

/// What is wrong with a line of a matrix file.
#[tactic(auto, unfolding(crate::specs::FaultTexts::matrix_fault_text))]
pub fn matrix_phrase(fault: MmFault) -> Phrase
    ensures { joined (map part_text result) ≡ joined (matrix_fault_text (fault_of fault)) }
{
    match fault {
        MmFault::Banner => one(Text("not a Matrix Market file")),
        MmFault::Field => one(Text("not an array of integers")),
        MmFault::Symmetry => one(Text("unknown symmetry")),
        MmFault::Size => one(Text("bad size line")),
        MmFault::Value => one(Text("bad value")),
        MmFault::Range => one(Text("value out of range")),
        MmFault::TooFew(have, want) => four(
            Text("too few values, have "),
            Count(have),
            Text(" want "),
            Count(want),
        ),
        MmFault::TooMany(want) => two(Text("too many values, want "), Count(want)),
        MmFault::LineLong => one(Text("line too long")),
        MmFault::FileLong => one(Text("file too long")),
        MmFault::NotText => one(Text("byte that is not text")),
    }
}

/// What is wrong with a line of a piece.
#[tactic(auto, unfolding(crate::specs::FaultTexts::piece_fault_text))]
pub fn piece_phrase(fault: PieceFault) -> Phrase
    ensures { joined (map part_text result) ≡ joined (piece_fault_text (fault_view fault)) }
{
    match fault {
        PieceFault::DescLine => one(Text("bad DESC line")),
        PieceFault::DescEntry(info) => two(Text("INFO "), Info(info.0)),
        PieceFault::WrongPlace => one(Text("wrong place")),
        PieceFault::Disagree => one(Text("disagrees with the first piece")),
        PieceFault::Shape(rows, columns, lld, wanted) => [
            Text("size is "),
            Count(rows),
            Text(" "),
            Count(columns),
            Text(", want "),
            Count(lld),
            Text(" "),
            Count(wanted),
        ],
        PieceFault::TooLarge(words) => two(Text("too many words: "), Words(words)),
        PieceFault::Mm(fault) => matrix_phrase(fault),
    }
}
