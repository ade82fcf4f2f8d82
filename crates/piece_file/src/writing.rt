//! Writing a piece to a store.
ghost use Rattle.std.specs.Prelude.{◌≡◌, ◌≤◌, ◌++◌, ◌∷◌, [], IsTrue};
ghost use Rattle.std.specs.List.{flat_map};
ghost use Rattle.text_io.specs.Writing.{Puts};
ghost use Rattle.text_io.specs.Saving.{Saves, SavesCause, OpensOnce, LeavesOpen};
ghost use Rattle.line_text.specs.Lines.{ended, text_of_lines};
ghost use Rattle.piece_grammar.specs.Head.{IsHead, array_columns, array_of};
ghost use Rattle.piece_grammar.specs.Desc.{desc_word};
ghost use Rattle.piece_grammar.specs.PlainPiece.{spaced, desc_numbers, desc_line, piece_text, IsWhole, ReadsBack};
ghost use Rattle.mm_grammar.specs.PlainText.{cell_lines};
ghost use Rattle.piece_file.specs.HeadView.{head_view};
ghost use Rattle.piece_file.specs.PieceView.{array_piece, matrix_piece};

use crate::head::Head;
use itoa::Buffer;
use mm_text::{Cells, put_banner, put_cells};
use pack_words::LocalArray;
use store_io::{Store, StoreErr};
use text_io::{Pen, Text, save};

// A space and the number.
#[tactic(auto, using(crate::proofs::WritingLaws::puts_spaced, crate::proofs::WritingLaws::front_spaced, crate::proofs::WritingLaws::front_space))]
fn put_spaced<S: Store>(pen: &mut Pen, store: &mut S, number: u32) -> Result<(), StoreErr>
    requires { IsTrue (S.state store.old).writing }
    ensures { Puts result (S.state store.old) (S.state store.new) pen.old pen.new (spaced number) }
{
    pen.put(store, b" ")?;
    let mut buffer = Buffer::new();
    pen.put(store, buffer.format(number).as_bytes())
}

// The numbers, a space before each.
#[tactic(auto, using(text_io::proofs::Putting::puts_none, crate::proofs::WritingLaws::puts_number, crate::proofs::WritingLaws::front_number, crate::proofs::WritingLaws::all_numbers))]
fn put_numbers<S: Store>(pen: &mut Pen, store: &mut S, numbers: &[u32]) -> Result<(), StoreErr>
    requires { IsTrue (S.state store.old).writing }
    ensures { Puts result (S.state store.old) (S.state store.new) pen.old pen.new
        (flat_map spaced numbers.now) }
{
    for number in numbers {
        put_spaced(pen, store, *number)?;
    }
    Ok(())
}

#[tactic(auto, unfolding(piece_grammar::specs::Desc::desc_word))]
fn put_desc_word<S: Store>(pen: &mut Pen, store: &mut S) -> Result<(), StoreErr>
    requires { IsTrue (S.state store.old).writing }
    ensures { Puts result (S.state store.old) (S.state store.new) pen.old pen.new desc_word }
{
    pen.put(store, b"%DESC")
}

#[tactic(auto, unfolding(piece_grammar::specs::PlainPiece::desc_numbers))]
fn put_desc_numbers<S: Store>(pen: &mut Pen, store: &mut S, head: &Head) -> Result<(), StoreErr>
    requires { IsTrue (S.state store.old).writing }
    ensures { Puts result (S.state store.old) (S.state store.new) pen.old pen.new
        (desc_numbers (head_view head.now)) }
{
    put_numbers(pen, store, &head.numbers())
}

#[tactic(auto, using(text_io::proofs::Putting::puts_then, text_io::proofs::Putting::front_then, text_io::proofs::Putting::front_more))]
fn put_desc_words<S: Store>(pen: &mut Pen, store: &mut S, head: &Head) -> Result<(), StoreErr>
    requires { IsTrue (S.state store.old).writing }
    ensures { Puts result (S.state store.old) (S.state store.new) pen.old pen.new
        (desc_line (head_view head.now)) }
{
    put_desc_word(pen, store)?;
    put_desc_numbers(pen, store, head)
}

// The line that tells the piece's place and the whole matrix's spread.
#[tactic(auto, using(text_io::proofs::Putting::puts_then, text_io::proofs::Putting::front_then, text_io::proofs::Putting::front_more))]
fn put_desc<S: Store>(pen: &mut Pen, store: &mut S, head: &Head) -> Result<(), StoreErr>
    requires { IsTrue (S.state store.old).writing }
    ensures { Puts result (S.state store.old) (S.state store.new) pen.old pen.new
        (ended (desc_line (head_view head.now))) }
{
    put_desc_words(pen, store, head)?;
    pen.put(store, b"\n")
}

// The lines after the banner.
#[tactic(auto, using(text_io::proofs::Putting::puts_then, text_io::proofs::Putting::front_then, text_io::proofs::Putting::front_more))]
fn put_rest<S: Store, C: Cells>(
    pen: &mut Pen,
    store: &mut S,
    head: &Head,
    cells: &C,
) -> Result<(), StoreErr>
    requires { IsTrue (S.state store.old).writing }
    ensures { Puts result (S.state store.old) (S.state store.new) pen.old pen.new
        (ended (desc_line (head_view head.now)) ++ text_of_lines (cell_lines (C.matrix cells.now))) }
{
    put_desc(pen, store, head)?;
    put_cells(pen, store, cells)
}

// A piece as the text of its file.
#[derive(Drop)]
struct PieceText<'a, C: Cells> {
    head: &'a Head,
    cells: &'a C,
}

impl<C: Cells> Text for PieceText<'_, C> {
    ghost bytes = { λ t. piece_text (head_view t.head.now) (C.matrix t.cells.now) };

    #[tactic(auto, using(text_io::proofs::Putting::puts_then, text_io::proofs::Putting::front_then, text_io::proofs::Putting::front_more), unfolding(piece_grammar::specs::PlainPiece::piece_text))]
    fn put<S: Store>(&self, pen: &mut Pen, store: &mut S) -> Result<(), StoreErr> {
        put_banner(pen, store)?;
        put_rest(pen, store, self.head, self.cells)
    }
}

/// Writes the text of a piece to a file, and closes it: the banner, the line of the head, and the size and the values of the
/// local array `cells` by columns. It takes no memory. `Failed` comes where the store failed; the file is then as opening it
/// left it, or holds a front of the text.
pub fn write_cells<S: Store, C: Cells>(
    store: &mut S,
    name: &str,
    head: &Head,
    cells: &C,
) -> Result<(), StoreErr>
    ensures saves { IsTrue (S.state store.old).told →
        Saves result (S.state store.old).files (S.state store.new).files name.now
        (piece_text (head_view head.now) (C.matrix cells.now)) }
    ensures back { let p = matrix_piece (head_view head.now) (C.matrix cells.now) in IsWhole p → ReadsBack p }
    ensures opens { OpensOnce (S.state store.old) (S.state store.new) }
    ensures cause { SavesCause result (S.state store.old) (S.state store.new) }
    ensures open { LeavesOpen result (S.state store.old) (S.state store.new) }
{
    save(store, name, &PieceText { head, cells })
}

/// Writes a piece to a file, and closes it. It takes no memory. `Failed` comes where the store failed; the file is then as
/// opening it left it, or holds a front of the text.
#[tactic(auto, using(crate::proofs::WritingLaws::local_text, crate::proofs::WritingLaws::local_back))]
pub fn write_piece<S: Store>(
    store: &mut S,
    name: &str,
    head: &Head,
    cells: &LocalArray,
) -> Result<(), StoreErr>
    requires head { IsHead (head_view head.now) }
    requires rows { cells.now.lld ≡ head.now.lld }
    requires columns { cells.now.cols ≡ array_columns (head_view head.now) }
    ensures saves { let p = array_piece (head_view head.now) cells.now in IsTrue (S.state store.old).told →
        Saves result (S.state store.old).files (S.state store.new).files name.now
        (piece_text p.head (array_of p)) }
    ensures back { ReadsBack (array_piece (head_view head.now) cells.now) }
    ensures opens { OpensOnce (S.state store.old) (S.state store.new) }
    ensures cause { SavesCause result (S.state store.old) (S.state store.new) }
    ensures open { LeavesOpen result (S.state store.old) (S.state store.new) }
{
    // an array keeps its limits, as this call tells
    let _lead = cells.lld();
    write_cells(store, name, head, cells)
}
