//! The command `move`.
ghost use Rattle.std.specs.Prelude.{◌≡◌, ◌≤◌, ◌*◌, length, map, List, Some};
ghost use Rattle.std.proofs.Props.{props};
ghost use Rattle.piece_grammar.specs.Head.{IsHead, Piece as PieceOf};
ghost use Rattle.piece_file.specs.HeadView.{head_view};
ghost use Rattle.piece_file.specs.PieceView.{piece_view};
ghost use Rattle.piece_file.specs.Gathering.{AreTurns};
ghost use Rattle.piece_moves.specs.PieceMove.{first_of};
ghost use Rattle.piece_moves.specs.Sizes.{HoldTwo};
ghost use Rattle.piece_moves.specs.MoveRuns.{AreMoved};
ghost use Rattle.file_tools.specs.SplitWalk.{distribution_of, piece_names};
ghost use Rattle.file_tools.specs.MoveWalk.{end_walk, moved_walk, move_walk};
ghost use Rattle.file_tools.specs.TargetView.{target_view};
ghost use Rattle.file_tools.specs.Troubles.{Follows};

use crate::names::{LIMIT, PieceNames};
use crate::reading::read_pieces;
use crate::saving::save_and_tell;
use crate::target::Target;
use crate::trouble::Trouble;
use piece_file::{Head, Name, Piece, write_cells};
use piece_moves::{MovedPieces, first_head, move_pieces, words_of_move};
use save_list::SaveList;
use std::alloc::Global;
use store_io::{Sink, Store, StoreErr};
use tool_lines::Part::{Count, Text, Words};

/// The moved pieces as files that are to be saved.
#[derive(Drop)]
pub struct MovedFiles<'a> {
    pub pieces: PieceNames<'a>,
    pub moved: MovedPieces,
    pub first: Head,
    pub ghost head: { IsHead (head_view first) },
    pub ghost ranks: { pieces.target.nprow * pieces.target.npcol ≤ length moved.nodes.items },
    pub ghost two: { HoldTwo moved.nodes.items } by { Prim.hlevel props },
}

impl SaveList for MovedFiles<'_> {
    ghost use Rattle.std.specs.Prelude.{◌*◌, map};
    ghost use Rattle.pack_words.specs.GridState.{arrays_held};
    ghost use Rattle.file_tools.specs.MoveWalk.{save_moved as saved_at};
    ghost use Rattle.file_tools.specs.TargetView.{target_view};

    ghost count = { λ f. f.pieces.target.nprow * f.pieces.target.npcol };

    ghost save_at = { λ f. saved_at (target_view f.pieces.target) f.first.m f.first.n (map arrays_held f.moved.nodes.items) };

    fn count_saves(&self) -> u32 {
        self.pieces.target.nprow * self.pieces.target.npcol
    }

    #[tactic(auto, using(crate::proofs::SplitLaws::saves_along))]
    fn save_one<S: Store>(&self, store: &mut S, number: u32) -> Result<(), StoreErr> {
        let target = &self.pieces.target;
        let head = target.head(self.first.m, self.first.n, number);
        let cells = self.moved.cells(number);
        write_cells(store, self.pieces.name(number), &head, cells)
    }

    fn into_name(self, number: u32) -> Name {
        self.pieces.into_name(number)
    }
}

/// Writes the moved pieces, and tells the numbers of their move.
pub fn save_moved<S: Store, O: Sink>(
    store: &mut S,
    out: &mut O,
    files: MovedFiles<'_>,
) -> Result<(), Trouble>
    ensures { (ps : List PieceOf) → head_view files.entry.first ≡ first_of ps →
        AreMoved ps (distribution_of (target_view files.entry.pieces.target)) files.entry.moved.numbers files.entry.moved.nodes.items →
        Follows result (end_walk (target_view files.entry.pieces.target) ps) (Some (piece_names (target_view files.entry.pieces.target)))
        (S.state store.old) (S.state store.new) (O.state out.old) (O.state out.new) }
{
    let line = [
        Text("meets "),
        Words(files.moved.numbers.meets),
        Text(" messages "),
        Count(files.moved.numbers.messages),
        Text(" copies "),
        Count(files.moved.numbers.copies),
    ];
    save_and_tell(store, out, files, &line)
}

// Moves the pieces, writes them, and tells the numbers. All memory is taken before the first file is opened for writing.
fn move_whole<S: Store, O: Sink>(
    alloc: Global,
    store: &mut S,
    out: &mut O,
    pieces: Vec<Piece>,
    target: &Target<'_>,
    seed: Option<u64>,
) -> Result<(), Trouble>
    requires { AreTurns (map piece_view pieces.items) }
    ensures { Follows result (moved_walk (target_view target.now) (map piece_view pieces.items))
        (Some (piece_names (target_view target.now))) (S.state store.old) (S.state store.new) (O.state out.old) (O.state out.new) }
{
    let to = target.distribution();
    let words = words_of_move(&pieces, &to);
    if words > LIMIT {
        return Err(Trouble::TooMany(words));
    }
    let first = first_head(&pieces);
    let names = PieceNames::new(alloc, target)?;
    let moved = move_pieces(alloc, pieces, &to, seed)?;
    let files = MovedFiles {
        pieces: names,
        moved,
        first,
    };
    save_moved(store, out, files)
}

/// Gathers the pieces of a prefix, moves them to the distribution of the target, writes the moved pieces, and tells the
/// numbers of the move. Its plan is run in its own order, or in that which a seed draws.
#[tactic(auto, using(crate::proofs::FollowLaws::passed_on))]
pub(crate) fn run_move<S: Store, O: Sink>(
    alloc: Global,
    store: &mut S,
    out: &mut O,
    prefix: &str,
    target: &Target<'_>,
    seed: Option<u64>,
) -> Result<(), Trouble>
    ensures { Follows result (move_walk prefix.now (target_view target.now))
        (Some (piece_names (target_view target.now))) (S.state store.old) (S.state store.new) (O.state out.old) (O.state out.new) }
{
    let pieces = read_pieces(alloc, store, prefix)?;
    move_whole(alloc, store, out, pieces, target, seed)
}
