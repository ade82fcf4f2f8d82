//! Laws of programs.

ghost use Rattle.program_meaning.specs.Laws.{AreDoneInTurn, AreRefusedFirst, AreRefusedThere, AreFewWords, AreFewOperations};
ghost use Rattle.program_meaning.specs.FileLaws.{LinesAreDecided, StatesAreDecided, AreReachedInTurn, AreFewReached};

/// Doing some lines and then others is doing all of them, one after the other.
pub fn lines_are_done_in_turn()
    ensures { AreDoneInTurn }
{}

/// A program is refused just where it has a line that is refused in the state which the lines before it leave: the first
/// such line is named, with its fault, and nothing after it is looked at.
pub fn first_refused_line()
    ensures first { AreRefusedFirst }
    ensures there { AreRefusedThere }
{}

/// Arrays and messages of the lines that are done have at most 2^26 words together, and they are at most 2^20 operations.
pub fn limits_are_kept()
    ensures words { AreFewWords }
    ensures operations { AreFewOperations }
{}

/// Where the store tells what its files hold, every line of a program comes to one answer, and so do lines one after the
/// other. Doing some lines and then others is doing all of them, and never are there more than 2^26 words.
pub fn files_decide()
    ensures line { LinesAreDecided }
    ensures states { StatesAreDecided }
    ensures turn { AreReachedInTurn }
    ensures words { AreFewReached }
{}
