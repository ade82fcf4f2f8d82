//! Printing matrices to a sink.
ghost use Rattle.std.specs.Prelude.{◌≡◌, ◌-◌, ◌<◌, ◌∷◌, ◌++◌, [], IsTrue, codes};
ghost use Rattle.std.specs.Fmt.{decimal, signed_decimal};
ghost use Rattle.line_text.specs.Lines.{ended};
ghost use Rattle.tool_lines.specs.Saying.{Tells};
ghost use Rattle.program_results.specs.Pouring.{Pours};
ghost use Rattle.program_results.specs.Printing.{after_space, value_at, row_line, rows_text, array_title, matrix_title, array_text, matrix_text};
ghost use Rattle.program_results.specs.RowParts.{next_values};

use crate::pen::SinkPen;
use mm_text::Cells;
use store_io::{Sink, SinkErr};

// The value of row `i` and column `j`.
#[inline]
fn put_value<O: Sink, C: Cells>(
    pen: &mut SinkPen,
    out: &mut O,
    cells: &C,
    i: u32,
    j: u32,
) -> Result<(), SinkErr>
    requires row { i < (C.matrix cells.now).rows }
    requires column { j < (C.matrix cells.now).columns }
    ensures pours { IsTrue (O.state out.old).told →
        Pours result (O.state out.old) (O.state out.new) pen.old pen.new
        (signed_decimal (value_at (C.matrix cells.now) i j)) }
    ensures tells { Tells result (O.state out.old) (O.state out.new) }
{
    pen.put_signed(out, cells.word(i, j))
}

// The same after a space.
#[inline]
#[tactic(auto, using(crate::proofs::PouringLaws::pours_then, crate::proofs::PouringLaws::front_then, crate::proofs::PouringLaws::front_more))]
fn put_next<O: Sink, C: Cells>(
    pen: &mut SinkPen,
    out: &mut O,
    cells: &C,
    i: u32,
    j: u32,
) -> Result<(), SinkErr>
    requires row { i < (C.matrix cells.now).rows }
    requires column { j < (C.matrix cells.now).columns }
    ensures pours { IsTrue (O.state out.old).told →
        Pours result (O.state out.old) (O.state out.new) pen.old pen.new
        (after_space (signed_decimal (value_at (C.matrix cells.now) i j))) }
    ensures tells { Tells result (O.state out.old) (O.state out.new) }
{
    match pen.put(out, b" ") {
        Ok(()) => put_value(pen, out, cells, i, j),
        Err(error) => Err(error),
    }
}

// The values of a row from the second on, each after a space.
#[tactic(auto, using(crate::proofs::RowLaws::no_values, crate::proofs::RowLaws::more_values, crate::proofs::RowLaws::values_failed))]
fn put_others<O: Sink, C: Cells>(
    pen: &mut SinkPen,
    out: &mut O,
    cells: &C,
    i: u32,
) -> Result<(), SinkErr>
    requires row { i < (C.matrix cells.now).rows }
    requires some { 0 < (C.matrix cells.now).columns }
    ensures pours { IsTrue (O.state out.old).told →
        Pours result (O.state out.old) (O.state out.new) pen.old pen.new
        (next_values (C.matrix cells.now) i ((C.matrix cells.now).columns - 1)) }
    ensures tells { Tells result (O.state out.old) (O.state out.new) }
{
    for j in 1..cells.columns() {
        match put_next(pen, out, cells, i, j) {
            Ok(()) => {}
            Err(error) => return Err(error),
        }
    }
    Ok(())
}

// The values of a row.
#[tactic(auto, using(crate::proofs::RowLaws::no_row, crate::proofs::RowLaws::whole_row, crate::proofs::RowLaws::row_failed, crate::proofs::RowLaws::first_failed))]
fn put_row<O: Sink, C: Cells>(
    pen: &mut SinkPen,
    out: &mut O,
    cells: &C,
    i: u32,
) -> Result<(), SinkErr>
    requires row { i < (C.matrix cells.now).rows }
    ensures pours { IsTrue (O.state out.old).told →
        Pours result (O.state out.old) (O.state out.new) pen.old pen.new
        (row_line (C.matrix cells.now) i) }
    ensures tells { Tells result (O.state out.old) (O.state out.new) }
{
    if cells.columns() == 0 {
        return Ok(());
    }
    match put_value(pen, out, cells, i, 0) {
        Ok(()) => put_others(pen, out, cells, i),
        Err(error) => Err(error),
    }
}

// The line of a row.
#[tactic(auto, using(crate::proofs::PouringLaws::pours_then, crate::proofs::PouringLaws::front_then, crate::proofs::PouringLaws::front_more))]
fn put_line<O: Sink, C: Cells>(
    pen: &mut SinkPen,
    out: &mut O,
    cells: &C,
    i: u32,
) -> Result<(), SinkErr>
    requires row { i < (C.matrix cells.now).rows }
    ensures pours { IsTrue (O.state out.old).told →
        Pours result (O.state out.old) (O.state out.new) pen.old pen.new
        (ended (row_line (C.matrix cells.now) i)) }
    ensures tells { Tells result (O.state out.old) (O.state out.new) }
{
    match put_row(pen, out, cells, i) {
        Ok(()) => pen.put(out, b"\n"),
        Err(error) => Err(error),
    }
}

// The lines of all rows.
#[tactic(auto, using(crate::proofs::RowLaws::no_rows, crate::proofs::RowLaws::more_rows, crate::proofs::RowLaws::rows_failed))]
fn put_rows<O: Sink, C: Cells>(pen: &mut SinkPen, out: &mut O, cells: &C) -> Result<(), SinkErr>
    ensures pours { IsTrue (O.state out.old).told →
        Pours result (O.state out.old) (O.state out.new) pen.old pen.new
        (rows_text (C.matrix cells.now)) }
    ensures tells { Tells result (O.state out.old) (O.state out.new) }
{
    for i in 0..cells.rows() {
        match put_line(pen, out, cells, i) {
            Ok(()) => {}
            Err(error) => return Err(error),
        }
    }
    Ok(())
}

// A space and a number.
#[tactic(auto, using(crate::proofs::PouringLaws::pours_then, crate::proofs::PouringLaws::front_then, crate::proofs::PouringLaws::front_more))]
fn put_number<O: Sink>(pen: &mut SinkPen, out: &mut O, number: u32) -> Result<(), SinkErr>
    ensures pours { IsTrue (O.state out.old).told →
        Pours result (O.state out.old) (O.state out.new) pen.old pen.new
        (after_space (decimal number)) }
    ensures tells { Tells result (O.state out.old) (O.state out.new) }
{
    match pen.put(out, b" ") {
        Ok(()) => pen.put_number(out, number),
        Err(error) => Err(error),
    }
}

// The end of a first line: the size of what follows.
#[tactic(auto, using(crate::proofs::PouringLaws::pours_then, crate::proofs::PouringLaws::front_then, crate::proofs::PouringLaws::front_more))]
fn put_size<O: Sink>(pen: &mut SinkPen, out: &mut O, rows: u32, columns: u32) -> Result<(), SinkErr>
    ensures pours { IsTrue (O.state out.old).told →
        Pours result (O.state out.old) (O.state out.new) pen.old pen.new
        (after_space (decimal rows) ++ after_space (decimal columns)) }
    ensures tells { Tells result (O.state out.old) (O.state out.new) }
{
    match put_number(pen, out, rows) {
        Ok(()) => put_number(pen, out, columns),
        Err(error) => Err(error),
    }
}

// A rank, and the size of what follows.
#[tactic(auto, using(crate::proofs::PouringLaws::pours_then, crate::proofs::PouringLaws::front_then, crate::proofs::PouringLaws::front_more))]
fn put_rank<O: Sink>(
    pen: &mut SinkPen,
    out: &mut O,
    rank: u32,
    rows: u32,
    columns: u32,
) -> Result<(), SinkErr>
    ensures pours { IsTrue (O.state out.old).told →
        Pours result (O.state out.old) (O.state out.new) pen.old pen.new
        (after_space (decimal rank) ++ (after_space (decimal rows) ++ after_space (decimal columns))) }
    ensures tells { Tells result (O.state out.old) (O.state out.new) }
{
    match put_number(pen, out, rank) {
        Ok(()) => put_size(pen, out, rows, columns),
        Err(error) => Err(error),
    }
}

// The word that stands after the name of a MATRIX, and what comes after it.
#[tactic(auto, using(crate::proofs::PouringLaws::pours_then, crate::proofs::PouringLaws::front_then, crate::proofs::PouringLaws::front_more))]
fn put_rank_word<O: Sink>(
    pen: &mut SinkPen,
    out: &mut O,
    rank: u32,
    rows: u32,
    columns: u32,
) -> Result<(), SinkErr>
    ensures pours { IsTrue (O.state out.old).told →
        Pours result (O.state out.old) (O.state out.new) pen.old pen.new
        (after_space (codes "rank") ++ (after_space (decimal rank) ++ (after_space (decimal rows) ++ after_space (decimal columns)))) }
    ensures tells { Tells result (O.state out.old) (O.state out.new) }
{
    match pen.put(out, b" rank") {
        Ok(()) => put_rank(pen, out, rank, rows, columns),
        Err(error) => Err(error),
    }
}

// The first line of an ARRAY, without its end.
#[tactic(auto, using(crate::proofs::TitleLaws::array_pours, crate::proofs::TitleLaws::array_front, crate::proofs::TitleLaws::array_name))]
fn put_array_title<O: Sink>(
    pen: &mut SinkPen,
    out: &mut O,
    name: &str,
    rows: u32,
    columns: u32,
) -> Result<(), SinkErr>
    ensures pours { IsTrue (O.state out.old).told →
        Pours result (O.state out.old) (O.state out.new) pen.old pen.new
        (array_title name.now rows columns) }
    ensures tells { Tells result (O.state out.old) (O.state out.new) }
{
    match pen.put(out, name.as_bytes()) {
        Ok(()) => put_size(pen, out, rows, columns),
        Err(error) => Err(error),
    }
}

// The first line of a MATRIX, without its end.
#[tactic(auto, using(crate::proofs::TitleLaws::matrix_pours, crate::proofs::TitleLaws::matrix_front, crate::proofs::TitleLaws::matrix_name))]
fn put_matrix_title<O: Sink>(
    pen: &mut SinkPen,
    out: &mut O,
    name: &str,
    rank: u32,
    rows: u32,
    columns: u32,
) -> Result<(), SinkErr>
    ensures pours { IsTrue (O.state out.old).told →
        Pours result (O.state out.old) (O.state out.new) pen.old pen.new
        (matrix_title name.now rank rows columns) }
    ensures tells { Tells result (O.state out.old) (O.state out.new) }
{
    match pen.put(out, name.as_bytes()) {
        Ok(()) => put_rank_word(pen, out, rank, rows, columns),
        Err(error) => Err(error),
    }
}

// The end of a first line, and the rows.
#[tactic(auto, using(crate::proofs::PouringLaws::pours_then, crate::proofs::PouringLaws::front_then, crate::proofs::PouringLaws::front_more))]
fn put_body<O: Sink, C: Cells>(pen: &mut SinkPen, out: &mut O, cells: &C) -> Result<(), SinkErr>
    ensures pours { IsTrue (O.state out.old).told →
        Pours result (O.state out.old) (O.state out.new) pen.old pen.new
        (10 ∷ [] ++ rows_text (C.matrix cells.now)) }
    ensures tells { Tells result (O.state out.old) (O.state out.new) }
{
    match pen.put(out, b"\n") {
        Ok(()) => put_rows(pen, out, cells),
        Err(error) => Err(error),
    }
}

/// Prints a whole matrix under a name: `name M N`, and then its rows.
#[tactic(auto, using(crate::proofs::TitleLaws::array_body, crate::proofs::TitleLaws::array_body_front, crate::proofs::TitleLaws::array_title_front))]
pub(crate) fn print_array<O: Sink, C: Cells>(
    pen: &mut SinkPen,
    out: &mut O,
    name: &str,
    cells: &C,
) -> Result<(), SinkErr>
    ensures pours { IsTrue (O.state out.old).told →
        Pours result (O.state out.old) (O.state out.new) pen.old pen.new
        (array_text name.now (C.matrix cells.now)) }
    ensures tells { Tells result (O.state out.old) (O.state out.new) }
{
    match put_array_title(pen, out, name, cells.rows(), cells.columns()) {
        Ok(()) => put_body(pen, out, cells),
        Err(error) => Err(error),
    }
}

/// Prints the array that a rank has under a name: `name rank n LLD COLS`, and then its rows.
#[tactic(auto, using(crate::proofs::TitleLaws::matrix_body, crate::proofs::TitleLaws::matrix_body_front, crate::proofs::TitleLaws::matrix_title_front))]
pub(crate) fn print_matrix<O: Sink, C: Cells>(
    pen: &mut SinkPen,
    out: &mut O,
    name: &str,
    rank: u32,
    cells: &C,
) -> Result<(), SinkErr>
    ensures pours { IsTrue (O.state out.old).told →
        Pours result (O.state out.old) (O.state out.new) pen.old pen.new
        (matrix_text name.now rank (C.matrix cells.now)) }
    ensures tells { Tells result (O.state out.old) (O.state out.new) }
{
    match put_matrix_title(pen, out, name, rank, cells.rows(), cells.columns()) {
        Ok(()) => put_body(pen, out, cells),
        Err(error) => Err(error),
    }
}
