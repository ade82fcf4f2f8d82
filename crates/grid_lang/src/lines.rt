//! The line of a keyword.
ghost use Rattle.std.specs.Prelude.{◌≡◌};
ghost use Rattle.grid_lang.specs.ReaderViews.{declared_of};
ghost use Rattle.grid_lang.specs.Table.{line_of};
ghost use Rattle.grid_lang.specs.Reading.{IsReadLine};

use crate::declarations::{
    array_line, fill_line, grid_line, load_line, map_line, matrix_line, ranks_line,
};
use crate::exchanges::{
    amn_line, amx_line, barrier_line, bcast_line, gemr2d_line, recv_line, send_line, sum_line,
    trmr2d_line,
};
use crate::fault::LangFault;
use crate::halt::Halt;
use crate::keyword::Keyword;
use crate::known::Known;
use crate::line::Line;
use crate::results::{print_line, save_line};
use crate::words::Words;
use std::alloc::Global;

// A line that takes no memory.
fn plain(line: Result<Line, LangFault>) -> Result<Line, Halt>
    ensures { IsReadLine line result }
{
    match line {
        Ok(line) => Ok(line),
        Err(fault) => Err(Halt::Bad(fault)),
    }
}

/// The line of a keyword and the words after it.
pub(crate) fn read_line(
    alloc: Global,
    known: &Known,
    keyword: Keyword,
    words: &mut Words,
) -> Result<Line, Halt>
    ensures { IsReadLine (line_of keyword (declared_of known.now) words.old) result }
{
    match keyword {
        Keyword::Ranks => plain(ranks_line(known, words)),
        Keyword::Grid => plain(grid_line(known, words)),
        Keyword::Map => map_line(alloc, known, words),
        Keyword::Array => array_line(alloc, known, words),
        Keyword::Matrix => matrix_line(alloc, known, words),
        Keyword::Load => load_line(alloc, known, words),
        Keyword::Fill => plain(fill_line(known, words)),
        Keyword::Send => plain(send_line(known, words)),
        Keyword::Recv => plain(recv_line(known, words)),
        Keyword::Bcast => plain(bcast_line(known, words)),
        Keyword::Sum => plain(sum_line(known, words)),
        Keyword::Amx => plain(amx_line(known, words)),
        Keyword::Amn => plain(amn_line(known, words)),
        Keyword::Barrier => plain(barrier_line(known, words)),
        Keyword::Gemr2d => plain(gemr2d_line(known, words)),
        Keyword::Trmr2d => plain(trmr2d_line(known, words)),
        Keyword::Save => save_line(alloc, known, words),
        Keyword::Print => plain(print_line(known, words)),
    }
}
