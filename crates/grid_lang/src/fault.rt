//! What can be wrong with a grid program.

/// What is wrong with a line.
#[derive(Clone, Copy, Debug, PartialEq, Eq)]
pub enum LangFault {
    /// A byte isn't text.
    NotText,
    /// A word is none of those that may stand there.
    Unknown,
    /// The line stands in the wrong part.
    Order,
    /// It has another number of words.
    Words,
    /// A word is a bad number.
    Number,
    /// A word is no name, or isn't declared of the kind.
    Name,
    /// The name of a declaration is declared already.
    Twice,
    /// A limit is passed.
    Limit,
}

/// Why a text is no program: its first bad line, counted from 1, and what is wrong with it; or out of memory.
#[derive(Clone, Copy, Debug, PartialEq, Eq)]
pub enum LangErr {
    Bad { line: u32, what: LangFault },
    NoMemory,
}
