//! Files that are read as matrix files and as pieces.
use crate::long_store::LongStore;
use crate::long_text::LongText;
use mm_text::{Cells, LoadErr, MmErr, MmFault, read_matrix};
use piece_file::{PieceErr, PieceFault, read_piece};
use std::alloc::{AllocError, Global};
use std::process::Abort;
use std::test::Fail;

const MATRIX: &str = "%%MatrixMarket matrix array integer general\n";

const PIECE: &str = "%%MatrixMarket matrix array integer general\n%DESC 1 1 0 0 2 1 2 1 0 0 2\n";

/// What a file is read as.
#[derive(Clone, Copy)]
pub(crate) enum Form {
    Matrix,
    Piece,
}

/// What stands in front of the blank lines, after the lines that tell the form: nothing, the size line, and that with one value or both.
pub(crate) const BARE: &str = "";

pub(crate) const SIZED: &str = "2 1\n";

pub(crate) const ONE: &str = "2 1\n5\n";

pub(crate) const BOTH: &str = "2 1\n5\n7\n";

/// A file of two rows and one column: what stands in front of its blank lines, after the lines that tell its form, and its tail,
/// where `_` stands for 1,024 blanks. It is refused at this line of the tail, counted from 1; or accepted, with the values 5 and 7.
pub(crate) type Case = (&'static str, &'static str, Option<(u64, MmFault)>);

// The tail of a case.
fn tail(alloc: Global, case: &Case) -> Result<String, AllocError> {
    let mut tail = String::new(alloc);
    for c in case.1.chars() {
        if c == '_' {
            tail.push_str(" ".repeat(alloc, 1024)?.as_str())?;
        } else {
            tail.push(c)?;
        }
    }
    Ok(tail)
}

// Whether the file is read so as a matrix file, where so many lines stand before the tail.
fn is_right_matrix(alloc: Global, store: &mut LongStore, lines: u64, case: &Case) -> bool {
    match (read_matrix(alloc, store, "f"), case.2) {
        (Ok(whole), None) => {
            whole.rows() == 2 && whole.columns() == 1 && whole.words.as_slice() == [5, 7].as_slice()
        }
        (Err(LoadErr::Mm(MmErr { line, what })), Some((nth, fault))) => {
            u64::from(line) == lines.saturating_add(nth) && what == fault
        }
        _ => false,
    }
}

// Whether the file is read so as a piece, where so many lines stand before the tail.
fn is_right_piece(alloc: Global, store: &mut LongStore, lines: u64, case: &Case) -> bool {
    match (read_piece(alloc, store, "f", 0, 0), case.2) {
        (Ok(piece), None) => {
            piece.head.lld == 2
                && piece.cells.cols() == 1
                && piece.cells.column(0) == [5, 7].as_slice()
        }
        (Err(PieceErr::Bad { name, line, fault }), Some((nth, what))) => {
            name.as_str() == "f.0.0"
                && u64::from(line) == lines.saturating_add(nth)
                && fault == PieceFault::Mm(what)
        }
        _ => false,
    }
}

// Whether the case is read so, where so many bytes stand before its tail.
fn is_right(alloc: Global, form: Form, case: &Case, before: u64) -> Result<bool, AllocError> {
    let first = match form {
        Form::Matrix => MATRIX,
        Form::Piece => PIECE,
    };
    let head = format!(in alloc; "{first}{}", case.0)?;
    let text = LongText::new(alloc, head, before, tail(alloc, case)?)?;
    let lines = text.lines_before();
    let mut store = LongStore::new(text);
    Ok(match form {
        Form::Matrix => is_right_matrix(alloc, &mut store, lines, case),
        Form::Piece => is_right_piece(alloc, &mut store, lines, case),
    })
}

/// The case is read so, where so many bytes stand before its tail.
pub(crate) fn holds(
    rt: &impl Abort,
    alloc: Global,
    form: Form,
    case: &Case,
    before: u64,
) -> Result<(), Fail> {
    let right = is_right(alloc, form, case, before)?;
    Ok(assert!(rt; right, "{before} {} {}", case.0, case.1))
}
