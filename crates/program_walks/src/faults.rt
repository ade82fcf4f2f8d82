//! What is said of a fault in a grid program.
ghost use Rattle.std.specs.Prelude.{◌≡◌, map};
ghost use Rattle.tool_lines.specs.Saying.{part_text};
ghost use Rattle.tool_lines.specs.Texts.{joined};
ghost use Rattle.program_walks.specs.ProgramTexts.{lang_fault_text, grid_fault_text, scope_fault_text, exec_fault_text};

use grid_lang::LangFault;
use proc_grid::GridErr;
use program_meaning::ExecFault;
use scope_ops::ScopeErr;
use tool_lines::Part::{Count, Info, Text, Words};
use tool_lines::{Phrase, four, one, three, two};

/// What is wrong with a line as a text.
#[tactic(auto, unfolding(crate::specs::ProgramTexts::lang_fault_text))]
pub fn lang_phrase(fault: LangFault) -> Phrase
    ensures { joined (map part_text result) ≡ joined (lang_fault_text fault) }
{
    match fault {
        LangFault::NotText => one(Text("byte that is not text")),
        LangFault::Unknown => one(Text("unknown word")),
        LangFault::Order => one(Text("line out of order")),
        LangFault::Words => one(Text("wrong number of words")),
        LangFault::Number => one(Text("bad number")),
        LangFault::Name => one(Text("bad name")),
        LangFault::Twice => one(Text("name given twice")),
        LangFault::Limit => one(Text("limit passed")),
    }
}

// Why a grid is refused.
#[tactic(auto, unfolding(crate::specs::ProgramTexts::grid_fault_text))]
fn grid_phrase(fault: GridErr) -> Phrase
    ensures { joined (map part_text result) ≡ joined (grid_fault_text fault) }
{
    match fault {
        GridErr::BadShape(rows, columns) => four(
            Text("bad grid shape "),
            Count(rows),
            Text(" "),
            Count(columns),
        ),
        GridErr::TooMany(places, ranks) => four(
            Text("grid needs "),
            Count(places),
            Text(" ranks of "),
            Count(ranks),
        ),
        GridErr::BadLead => one(Text("bad leading dimension")),
        GridErr::NoProcess(rank) => two(Text("no process "), Count(rank)),
        GridErr::Twice(rank) => three(Text("process "), Count(rank), Text(" named twice")),
        GridErr::NoMemory => one(Text("out of memory")),
    }
}

// Why a message, a broadcast, a combine or a barrier is refused.
#[tactic(auto, unfolding(crate::specs::ProgramTexts::scope_fault_text))]
fn scope_phrase(fault: ScopeErr) -> Phrase
    ensures { joined (map part_text result) ≡ joined (scope_fault_text fault) }
{
    match fault {
        ScopeErr::NotInGrid => one(Text("no such place in the grid")),
        ScopeErr::SameArray => one(Text("the same array twice")),
        ScopeErr::OutOfArray => one(Text("region outside the array")),
        ScopeErr::BadRcLead(lead, rows) => four(
            Text("leading dimension "),
            Count(lead),
            Text(" less than "),
            Count(rows),
        ),
        ScopeErr::NoMessage(from, to) => four(
            Text("no message from "),
            Count(from),
            Text(" to "),
            Count(to),
        ),
        ScopeErr::WrongLength(have, want) => four(
            Text("message has "),
            Count(have),
            Text(" words, want "),
            Count(want),
        ),
        ScopeErr::TooManyOps => one(Text("too many operations")),
        ScopeErr::NoMemory => one(Text("out of memory")),
    }
}

/// Why a line is refused.
#[tactic(auto, unfolding(crate::specs::ProgramTexts::exec_fault_text))]
pub fn exec_phrase(fault: ExecFault) -> Phrase
    ensures { joined (map part_text result) ≡ joined (exec_fault_text fault) }
{
    match fault {
        ExecFault::Grid(fault) => grid_phrase(fault),
        ExecFault::Info(info) => two(Text("INFO "), Info(info.0)),
        ExecFault::Scope(fault) => scope_phrase(fault),
        ExecFault::SameArray => one(Text("the same array twice")),
        ExecFault::TooManyOps => one(Text("too many operations")),
        ExecFault::Waiting(from, to) => [
            Text("message from "),
            Count(from),
            Text(" to "),
            Count(to),
            Text(" still waits"),
            Text(""),
            Text(""),
            Text(""),
        ],
        ExecFault::TooLarge(words) => two(Text("too many words: "), Words(words)),
        ExecFault::Size(m, n, rows, columns) => [
            Text("file is "),
            Count(m),
            Text(" "),
            Count(n),
            Text(", array is "),
            Count(rows),
            Text(" "),
            Count(columns),
        ],
    }
}
