//! Writing the results of a program.
ghost use Rattle.std.specs.Prelude.{◌≡◌, ◌*◌, ◌<◌, IsTrue, length, map};
ghost use Rattle.text_io.specs.Saving.{Saves, SavesCause, OpensOnce};
ghost use Rattle.mm_grammar.specs.PlainText.{plain_text};
ghost use Rattle.pack_words.specs.GridState.{arrays_held};
ghost use Rattle.tool_lines.specs.Saying.{Says, Tells};
ghost use Rattle.program_results.specs.Placed.{whole_matrix, cells_on, text_of_piece};
ghost use Rattle.program_results.specs.Pouring.{Pours};
ghost use Rattle.program_results.specs.EndsView.{print_text, save_of, finished_output};
ghost use Rattle.program_results.specs.Standing.{HasPrint, HoldsParts, HoldsPrint, Fits};

use crate::cells::{ArrayCells, cells_at, piece_cells};
use crate::ends::Ends;
use crate::file::{Print, Source};
use crate::pen::SinkPen;
use crate::place::Place;
use crate::printing::{print_array, print_matrix};
use mm_text::{Cells, put_banner, put_cells};
use pack_words::RankMem;
use piece_file::write_cells;
use store_io::{Sink, SinkErr, Store, StoreErr};
use text_io::{Pen, Text, save};

// A matrix as the text of its file.
#[derive(Drop)]
struct WholeText<'a, C: Cells> {
    cells: &'a C,
}

impl<C: Cells> Text for WholeText<'_, C> {
    ghost bytes = { λ t. plain_text (C.matrix t.cells.now) };

    #[tactic(auto, using(text_io::proofs::Putting::puts_then, text_io::proofs::Putting::front_then, text_io::proofs::Putting::front_more), unfolding(mm_grammar::specs::PlainText::plain_text))]
    fn put<S: Store>(&self, pen: &mut Pen, store: &mut S) -> Result<(), StoreErr> {
        put_banner(pen, store)?;
        put_cells(pen, store, self.cells)
    }
}

// Saves the whole matrix of an ARRAY.
fn save_whole<S: Store>(
    store: &mut S,
    name: &str,
    place: &Place,
    nodes: &[RankMem],
    array: u32,
) -> Result<(), StoreErr>
    requires { HoldsParts (map arrays_held nodes.now) array place.now }
    ensures saves { IsTrue (S.state store.old).told →
        Saves result (S.state store.old).files (S.state store.new).files name.now
        (plain_text (whole_matrix (map arrays_held nodes.now) array place.now)) }
    ensures opens { OpensOnce (S.state store.old) (S.state store.new) }
    ensures cause { SavesCause result (S.state store.old) (S.state store.new) }
{
    let cells = ArrayCells::new(place, nodes, array);
    save(store, name, &WholeText { cells: &cells })
}

// Saves the piece of a process.
#[tactic(auto, unfolding(crate::specs::Placed::text_of_piece))]
fn save_piece<S: Store>(
    store: &mut S,
    name: &str,
    place: &Place,
    nodes: &[RankMem],
    array: u32,
    process: u32,
) -> Result<(), StoreErr>
    requires parts { HoldsParts (map arrays_held nodes.now) array place.now }
    requires process { process < place.now.layout.nprow * place.now.layout.npcol }
    ensures saves { IsTrue (S.state store.old).told →
        Saves result (S.state store.old).files (S.state store.new).files name.now
        (text_of_piece place.now.layout process (cells_on (map arrays_held nodes.now) array place.now process)) }
    ensures opens { OpensOnce (S.state store.old) (S.state store.new) }
    ensures cause { SavesCause result (S.state store.old) (S.state store.new) }
{
    let cells = piece_cells(place, nodes, array, process);
    write_cells(store, name, &place.head(process, cells.lld()), cells)
}

/// Saves one file.
#[tactic(auto, using(crate::proofs::WritingLaws::whole_saved, crate::proofs::WritingLaws::piece_saved))]
pub(crate) fn save_file<S: Store>(
    store: &mut S,
    ends: &Ends,
    nodes: &[RankMem],
    number: u32,
) -> Result<(), StoreErr>
    requires fits { Fits ends.now (map arrays_held nodes.now) }
    requires number { number < length ends.now.files }
    ensures saves { IsTrue (S.state store.old).told →
        (let s = save_of (record { ends = ends.now; arrays = map arrays_held nodes.now }) number in
        Saves result (S.state store.old).files (S.state store.new).files s.name s.text) }
    ensures opens { OpensOnce (S.state store.old) (S.state store.new) }
    ensures cause { SavesCause result (S.state store.old) (S.state store.new) }
{
    let file = ends.file(number);
    let name = file.name.as_str();
    match file.source {
        Source::Whole { array } => save_whole(store, name, ends.place(array), nodes, array),
        Source::Piece { array, process } => {
            save_piece(store, name, ends.place(array), nodes, array, process)
        }
    }
}

// Puts what one line prints.
#[tactic(auto, using(crate::proofs::WritingLaws::array_put))]
fn put_print<O: Sink>(
    pen: &mut SinkPen,
    out: &mut O,
    ends: &Ends,
    nodes: &[RankMem],
    print: Print,
) -> Result<(), SinkErr>
    requires fits { Fits ends.now (map arrays_held nodes.now) }
    requires known { HasPrint ends.now.places print }
    requires held { HoldsPrint (map arrays_held nodes.now) print }
    ensures pours { IsTrue (O.state out.old).told →
        Pours result (O.state out.old) (O.state out.new) pen.old pen.new
        (print_text ends.now.names ends.now.places (map arrays_held nodes.now) print) }
    ensures tells { Tells result (O.state out.old) (O.state out.new) }
{
    match print {
        Print::Array { array } => {
            let cells = ArrayCells::new(ends.place(array), nodes, array);
            print_array(pen, out, ends.name(array), &cells)
        }
        Print::Matrix { array, rank } => {
            print_matrix(
                pen,
                out,
                ends.name(array),
                rank,
                cells_at(nodes, rank, array),
            )
        }
    }
}

// Puts what all lines print.
#[tactic(auto, using(crate::proofs::WritingLaws::no_prints, crate::proofs::WritingLaws::more_prints, crate::proofs::WritingLaws::prints_failed, crate::proofs::WritingLaws::all_prints))]
fn put_prints<O: Sink>(
    pen: &mut SinkPen,
    out: &mut O,
    ends: &Ends,
    nodes: &[RankMem],
) -> Result<(), SinkErr>
    requires fits { Fits ends.now (map arrays_held nodes.now) }
    ensures pours { IsTrue (O.state out.old).told →
        Pours result (O.state out.old) (O.state out.new) pen.old pen.new
        (finished_output (record { ends = ends.now; arrays = map arrays_held nodes.now })) }
    ensures tells { Tells result (O.state out.old) (O.state out.new) }
{
    for print in ends.prints() {
        match put_print(pen, out, ends, nodes, *print) {
            Ok(()) => {}
            Err(error) => return Err(error),
        }
    }
    Ok(())
}

/// Prints what all lines print, in their order.
#[tactic(auto, using(crate::proofs::PouringLaws::says_whole, crate::proofs::PouringLaws::says_part, crate::proofs::PouringLaws::says_front))]
pub(crate) fn print_all<O: Sink>(out: &mut O, ends: &Ends, nodes: &[RankMem]) -> Result<(), SinkErr>
    requires fits { Fits ends.now (map arrays_held nodes.now) }
    ensures says { IsTrue (O.state out.old).told →
        Says result (O.state out.old) (O.state out.new)
        (finished_output (record { ends = ends.now; arrays = map arrays_held nodes.now })) }
    ensures tells { Tells result (O.state out.old) (O.state out.new) }
{
    let mut pen = SinkPen::new();
    match put_prints(&mut pen, out, ends, nodes) {
        Ok(()) => pen.flush(out),
        Err(error) => Err(error),
    }
}
