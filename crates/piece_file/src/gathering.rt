//! Reading one piece, and all pieces of a matrix.
ghost use Rattle.std.specs.Prelude.{◌≡◌, ◌≤◌, ◌+◌, ◌^◌, [], IsTrue, IfOk, IfErr, OnOk, MatchOption, map, length};
ghost use Rattle.text_io.specs.Reading.{OnlyReads};
ghost use Rattle.piece_grammar.specs.Head.{IsHead, array_words};
ghost use Rattle.piece_grammar.specs.Turn.{alone, HasTurn};
ghost use Rattle.piece_grammar.specs.PieceFault.{IsDecided};
ghost use Rattle.piece_grammar.specs.PlainPiece.{piece_name as name_of_piece};
ghost use Rattle.piece_grammar.specs.Pieces.{turn_behind, AreAll, AreFew, IsGathering, words_of};
ghost use Rattle.piece_file.specs.HeadView.{head_view};
ghost use Rattle.piece_file.specs.PieceView.{piece_view};
ghost use Rattle.piece_file.specs.Asking.{turn_view};
ghost use Rattle.piece_file.specs.Gathering.{held_in, LoadsTurn, IsNamed, HaveTurns, AreTurns, AreWithin, NamesPiece, Gathers, HasReason};

use crate::fault::PieceErr;
use crate::piece::Piece;
use crate::reading::read_turn;
use crate::turn::Turn;
use std::alloc::Global;
use store_io::Store;

/// Reads the piece of process row `prow` and process column `pcol`: the file `prefix.prow.pcol`. `Ok` says that the file was
/// read to its end; `Bad` names the first line that can't stand in a piece of this place, and what is wrong with it.
///
/// `Missing` comes where the store has no such file, `Failed` where it failed, and `NoMemory` where memory was wanted. It
/// doesn't close the input.
#[tactic(auto, using(piece_grammar::proofs::Laws::decided))]
pub fn read_piece<S: Store>(
    alloc: Global,
    store: &mut S,
    prefix: &str,
    prow: u32,
    pcol: u32,
) -> Result<Piece, PieceErr>
    ensures loads { IsTrue (S.state store.old).told →
        LoadsTurn result (S.state store.old).files prefix.now (alone prow pcol) }
    ensures one { IsDecided (alone prow pcol) }
    ensures named { IfErr result (λ e. IsNamed e (name_of_piece prefix.now prow pcol)) }
    ensures is_head { IfOk result (λ p. IsHead (head_view p.head)) }
    ensures has_turn { IfOk result (λ p. HasTurn (alone prow pcol) (head_view p.head)) }
    ensures ended { IsTrue (S.state store.old).told → OnOk result ((S.state store.new).left ≡ []) }
    ensures cause { HasReason result (S.state store.old) (S.state store.new) }
    ensures same { OnlyReads (S.state store.old) (S.state store.new) }
{
    let turn = Turn {
        prow,
        pcol,
        first: None,
        before: 0,
    };
    read_turn(alloc, store, prefix, &turn)
}

// The words of a piece's array.
fn array_size(piece: &Piece) -> u64
    ensures { result ≡ array_words (head_view piece.now.head) }
{
    u64::from(piece.cells.lld()) * u64::from(piece.cells.cols())
}

// Whose turn it is after these pieces, which have so many words; none where all are there.
fn turn_after(pieces: &[Piece], words: u64) -> Option<Turn>
    requires turns { HaveTurns [] (map piece_view pieces.now) }
    requires within { AreWithin (map piece_view pieces.now) }
    requires words { words ≡ words_of (map piece_view pieces.now) }
    requires few { words ≤ 2 ^ 26 }
    ensures { MatchOption result (AreAll (map piece_view pieces.now))
        (λ turn. (turn_view turn ≡ turn_behind (map piece_view pieces.now)) × AreFew (map piece_view pieces.now)) }
{
    let Some(first) = pieces.first() else {
        return Some(Turn {
            prow: 0,
            pcol: 0,
            first: None,
            before: 0,
        });
    };
    let head = first.head;
    let read = pieces.len() as u32;
    if read >= head.nprow * head.npcol {
        return None;
    }
    Some(Turn {
        prow: read / head.npcol,
        pcol: read % head.npcol,
        first: Some(head),
        before: words,
    })
}

/// Reads all pieces of a prefix, row-major: the piece of process (0, 0), which names the grid, and then the others, each to
/// its end before the next is opened. Together their arrays have at most 2^26 words. `Bad` names the first file that is no
/// piece where its turn comes, with the first line that can't stand there and what is wrong with it.
///
/// `Missing` comes with the first name that the store doesn't have, `Failed` with the name at which it failed, and `NoMemory`
/// where memory was wanted. It doesn't close the input.
#[tactic(auto, using(piece_grammar::proofs::GatherLaws::gathering, crate::proofs::GatherSteps::names_piece))]
pub fn gather_pieces<S: Store>(
    alloc: Global,
    store: &mut S,
    prefix: &str,
) -> Result<Vec<Piece>, PieceErr>
    ensures gathers { IsTrue (S.state store.old).told →
        Gathers result (S.state store.old).files prefix.now }
    ensures one { IsGathering (held_in (S.state store.old).files) prefix.now }
    ensures named { IfErr result (λ e. NamesPiece e prefix.now) }
    ensures turns { IfOk result (λ ps. AreTurns (map piece_view ps.items)) }
    ensures ended { IsTrue (S.state store.old).told → OnOk result ((S.state store.new).left ≡ []) }
    ensures cause { HasReason result (S.state store.old) (S.state store.new) }
    ensures same { OnlyReads (S.state store.old) (S.state store.new) }
{
    let mut pieces = Vec::new(alloc);
    let mut words = 0;
    while let Some(turn) = turn_after(&pieces, words) {
        let piece = read_turn(alloc, store, prefix, &turn)?;
        words += array_size(&piece);
        match pieces.push(piece) {
            Ok(()) => {}
            Err(_) => return Err(PieceErr::NoMemory),
        }
    }
    Ok(pieces)
}
