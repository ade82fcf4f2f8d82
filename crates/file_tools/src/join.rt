//! The command `join`.
ghost use Rattle.std.specs.Prelude.{◌≡◌, ◌+◌, ◌*◌, ◌^◌, ◌≤◌, ◌∷◌, [], max, map, Some};
ghost use Rattle.store_io.specs.Outside.{Poured};
ghost use Rattle.piece_grammar.specs.Head.{IsHead, layout_of as spread_of};
ghost use Rattle.piece_file.specs.HeadView.{head_view};
ghost use Rattle.piece_file.specs.PieceView.{piece_view};
ghost use Rattle.piece_file.specs.Gathering.{AreTurns};
ghost use Rattle.spread_cells.specs.LayoutView.{layout_view};
ghost use Rattle.spread_cells.specs.JoinedMatrix.{matrix_of};
ghost use Rattle.file_tools.specs.JoinWalk.{layout_by, whole_walk, join_walk};
ghost use Rattle.file_tools.specs.Troubles.{Follows};

use crate::names::LIMIT;
use crate::reading::read_pieces;
use crate::saving::save_to_end;
use crate::trouble::Trouble;
use mm_text::write_matrix;
use piece_file::{Head, Name, Piece};
use piece_moves::{arrays_of, pieces_words};
use save_list::SaveList;
use spread_cells::{JoinedCells, Layout};
use std::alloc::Global;
use store_io::{Store, StoreErr};

// A joined matrix as the file that is to be saved.
#[derive(Drop)]
struct JoinedFile<'a> {
    name: Name,
    cells: JoinedCells<'a>,
    ghost rows: { (matrix_of cells).rows ≤ 2 ^ 24 },
    ghost columns: { (matrix_of cells).columns ≤ 2 ^ 24 },
    ghost area: { (matrix_of cells).rows * (matrix_of cells).columns ≤ 2 ^ 26 },
}

impl SaveList for JoinedFile<'_> {
    ghost use Rattle.mm_grammar.specs.PlainText.{plain_text};
    ghost use Rattle.spread_cells.specs.JoinedMatrix.{matrix_of};
    ghost use Rattle.save_list.specs.Save.{save};

    ghost count = { λ f. 1 };

    ghost save_at = { λ f _. save f.name (plain_text (matrix_of f.cells)) };

    fn count_saves(&self) -> u32 {
        1
    }

    fn save_one<S: Store>(&self, store: &mut S, _number: u32) -> Result<(), StoreErr> {
        write_matrix(store, self.name.as_str(), &self.cells)
    }

    fn into_name(self, _number: u32) -> Name {
        self.name
    }
}

// How the whole matrix is spread, as a head tells.
fn layout_of(head: &Head) -> Layout
    requires { IsHead (head_view head.now) }
    ensures { layout_view result ≡ spread_of (head_view head.now) }
{
    Layout {
        rows: head.m,
        columns: head.n,
        mb: head.mb,
        nb: head.nb,
        rsrc: head.rsrc,
        csrc: head.csrc,
        nprow: head.nprow,
        npcol: head.npcol,
    }
}

// The words of the matrix as one local array, and of all that moves.
fn whole_words(layout: &Layout) -> u64
    ensures words { result ≡ max 1 layout.now.rows * max 1 layout.now.columns +
        layout.now.rows * layout.now.columns }
    ensures bound { result ≤ 2 ^ 49 }
{
    u64::from(layout.rows.max(1)) * u64::from(layout.columns.max(1))
        + u64::from(layout.rows) * u64::from(layout.columns)
}

// How the whole matrix is spread.
fn layout_by_first(pieces: &[Piece]) -> Layout
    requires { AreTurns (map piece_view pieces.now) }
    ensures { layout_view result ≡ layout_by (map piece_view pieces.now) }
{
    layout_of(&pieces[0].head)
}

// Joins the pieces, and writes the whole matrix. All memory is taken before the file is opened for writing.
#[tactic(auto, using(command_walks::proofs::GoingOn::wants_memory))]
fn join_whole<S: Store>(
    alloc: Global,
    store: &mut S,
    pieces: Vec<Piece>,
    output: Name,
) -> Result<(), Trouble>
    requires { AreTurns (map piece_view pieces.items) }
    ensures { (pour : Poured) →
        Follows result (whole_walk output (map piece_view pieces.items)) (Some (output ∷ [])) (S.state store.old)
        (S.state store.new) pour pour }
{
    let layout = layout_by_first(&pieces);
    let words = pieces_words(&pieces) + whole_words(&layout);
    if words > LIMIT {
        return Err(Trouble::TooMany(words));
    }
    let arrays = arrays_of(alloc, pieces)?;
    let cells = JoinedCells::new(alloc, layout, &arrays)?;
    let file = JoinedFile {
        name: output,
        cells,
    };
    save_to_end(store, file)
}

/// Gathers the pieces, joins them, and writes the whole matrix to the file `output`.
#[tactic(auto, using(crate::proofs::FollowLaws::passed_on))]
pub(crate) fn run_join<S: Store>(
    alloc: Global,
    store: &mut S,
    prefix: &str,
    output: Name,
) -> Result<(), Trouble>
    ensures { (pour : Poured) →
        Follows result (join_walk prefix.now output) (Some (output ∷ [])) (S.state store.old) (S.state store.new) pour pour }
{
    let pieces = read_pieces(alloc, store, prefix)?;
    join_whole(alloc, store, pieces, output)
}
