//! Reading a piece from a store, part by part.
ghost use Rattle.std.specs.Prelude.{◌≡◌, ◌≤◌, ◌+◌, ◌^◌, ◌*◌, None, Some, IfOk, IfSome, OnOk, length};
ghost use Rattle.std.specs.Option.{option_map};
ghost use Rattle.mm_grammar.specs.FileLines.{file_lines};
ghost use Rattle.mm_grammar.specs.Symmetry.{General};
ghost use Rattle.mm_reader.specs.Views.{header_view};
ghost use Rattle.mm_reader.specs.ReaderView.{lines_left};
ghost use Rattle.mm_reader.specs.Taking.{IsTaken};
ghost use Rattle.piece_grammar.specs.Head.{IsHead};
ghost use Rattle.piece_grammar.specs.Turn as grammar;
ghost use Rattle.piece_grammar.specs.Turn.{HasTurn};
ghost use Rattle.piece_grammar.specs.FaultTable.{first_fault, array_rows};
ghost use Rattle.piece_grammar.specs.Place.{AtBanner, AtDesc};
ghost use Rattle.piece_file.specs.HeadView.{head_view};
ghost use Rattle.piece_file.specs.PieceView.{array_piece, piece_view};
ghost use Rattle.piece_file.specs.FaultView.{fault_view};
ghost use Rattle.piece_file.specs.Asking.{turn_view, IsAsked};
ghost use Rattle.piece_file.specs.Halting.{Makes, halted, behind_head, behind_size, behind_between, Fits, Wants, Passes, PassesAlways, GivesPiece, GivesAlways, halt_in};
ghost use Rattle.piece_file.specs.Gathering.{ReadsTurn};

use crate::checks::check_desc;
use crate::desc_line::read_desc_line;
use crate::fault::{PieceErr, PieceFault, Refusal};
use crate::head::Head;
use crate::name::{Name, piece_name};
use crate::piece::Piece;
use crate::turn::Turn;
use index_tools::numroc;
use mm_reader::{Header, MmErr, MmFault, Symmetry, banner_step, is_text, read_values, size_step};
use pack_words::LocalArray;
use std::alloc::Global;
use store_io::{Store, StoreErr};
use text_io::{Halt, Next, Reader};

// The most words of all pieces.
const MOST: u64 = 1 << 26;

// Takes the next line. Where there is none, the file has the fault `missing`.
#[tactic(auto, using(crate::proofs::PartLaws::fault_stops, crate::proofs::PartLaws::end_stops))]
fn take_line<S: Store>(
    reader: &mut Reader,
    store: &mut S,
    missing: PieceFault,
) -> Result<(), Halt<Refusal>>
    ensures { Wants result missing reader.old reader.new (S.state store.old) (S.state store.new) }
{
    let line = reader.number();
    match reader.next(store) {
        Ok(Next::Line) => Ok(()),
        Ok(Next::End) => Err(Halt::Bad(Refusal {
            line,
            fault: missing,
        })),
        Ok(Next::Fault(what)) => Err(Halt::Bad(Refusal {
            line,
            fault: PieceFault::Mm(MmFault::of_line(what)),
        })),
        Err(_) => Err(Halt::Failed),
    }
}

// What the step of a line gives, where a fault stands at this line.
fn at_line<X: Drop>(line: u32, answer: Result<X, PieceFault>) -> Result<X, Halt<Refusal>>
    ensures { result ≡ halted line answer }
{
    match answer {
        Ok(given) => Ok(given),
        Err(fault) => Err(Halt::Bad(Refusal { line, fault })),
    }
}

// What the first line makes of the file: its banner is that of a general matrix.
#[tactic(auto, using(crate::proofs::StepLaws::banner_general, crate::proofs::StepLaws::banner_another, crate::proofs::StepLaws::banner_bad))]
fn general_banner(line: &[u8]) -> Result<(), PieceFault>
    requires { length line.now ≤ 1024 }
    ensures { (turn : grammar.Turn) → Makes (λ _. AtDesc) result turn AtBanner line.now }
{
    match banner_step(line) {
        Ok(Symmetry::General) => Ok(()),
        Ok(_) => Err(PieceFault::Mm(MmFault::Symmetry)),
        Err(what) => Err(PieceFault::Mm(what)),
    }
}

// Reads the banner.
#[tactic(auto, unfolding(piece_grammar::specs::PieceReading::at_end))]
fn read_banner<S: Store>(reader: &mut Reader, store: &mut S) -> Result<(), Halt<Refusal>>
    ensures { PassesAlways (λ _. AtDesc) result AtBanner reader.old reader.new
        (S.state store.old) (S.state store.new) }
{
    let line = reader.number();
    take_line(reader, store, PieceFault::Mm(MmFault::Banner))?;
    at_line(line, general_banner(reader.text()))
}

// What the second line makes of the file: a head that is asked for.
#[tactic(auto, using(crate::proofs::StepLaws::desc_no_text, crate::proofs::StepLaws::desc_no_form))]
fn head_step(line: &[u8], turn: &Turn) -> Result<Head, PieceFault>
    requires { length line.now ≤ 1024 }
    ensures steps { Makes behind_head result (turn_view turn.now) AtDesc line.now }
    ensures asked { IfOk result (λ head. IsAsked (turn_view turn.now) (head_view head)) }
{
    if !is_text(line) {
        return Err(PieceFault::Mm(MmFault::NotText));
    }
    match read_desc_line(line) {
        Some(desc) => check_desc(&desc, turn),
        None => Err(PieceFault::DescLine),
    }
}

// Reads the line of the head.
#[tactic(auto, unfolding(piece_grammar::specs::PieceReading::at_end))]
fn read_head<S: Store>(
    reader: &mut Reader,
    store: &mut S,
    turn: &Turn,
) -> Result<Head, Halt<Refusal>>
    ensures passes { Passes behind_head result (turn_view turn.now) AtDesc reader.old reader.new
        (S.state store.old) (S.state store.new) }
    ensures asked { IfOk result (λ head. IsAsked (turn_view turn.now) (head_view head)) }
{
    let line = reader.number();
    take_line(reader, store, PieceFault::DescLine)?;
    at_line(line, head_step(reader.text(), turn))
}

// What is wrong with the size of a head's array: it has LLD rows and as many columns as its process has of the matrix, at
// least one, and there is room for its words.
#[tactic(auto, using(crate::proofs::SizeSteps::other_rows, crate::proofs::SizeSteps::other_columns, crate::proofs::SizeSteps::too_many, crate::proofs::SizeSteps::fits))]
fn size_fault(head: &Head, size: &Header, turn: &Turn) -> Option<PieceFault>
    requires { IsHead (head_view head.now) }
    ensures { first_fault (array_rows (turn_view turn.now) (head_view head.now) (Some (header_view size.now)))
        ≡ option_map fault_view result }
{
    let columns = numroc(head.n, head.nb, head.pcol, head.csrc, head.npcol).max(1);
    if size.rows != head.lld || size.columns != columns {
        return Some(PieceFault::Shape(size.rows, size.columns, head.lld, columns));
    }
    let words = turn.before + u64::from(head.lld) * u64::from(columns);
    if words > MOST {
        return Some(PieceFault::TooLarge(words));
    }
    None
}

// What a line before the values makes of a piece: the size of its array, where it is the size line.
#[tactic(auto, using(crate::proofs::StepLaws::between_taken, crate::proofs::StepLaws::size_taken, crate::proofs::StepLaws::size_refused, crate::proofs::StepLaws::size_bad, crate::proofs::SizeSteps::size_fits))]
fn array_step(line: &[u8], head: &Head, turn: &Turn) -> Result<Option<Header>, PieceFault>
    requires short { length line.now ≤ 1024 }
    requires head { IsHead (head_view head.now) }
    ensures steps { Makes (behind_between head.now) result (turn_view turn.now) (behind_head head.now) line.now }
    ensures fits { IfOk result (λ o. IfSome o (λ size. Fits (turn_view turn.now) (head_view head.now) (header_view size))) }
{
    match size_step(line, Symmetry::General) {
        Ok(Some(size)) => match size_fault(head, &size, turn) {
            None => Ok(Some(size)),
            Some(fault) => Err(fault),
        },
        Ok(None) => Ok(None),
        Err(what) => Err(PieceFault::Mm(what)),
    }
}

// Reads a line before the values: the size, where it is the size line.
#[tactic(auto, unfolding(piece_grammar::specs::PieceReading::at_end, mm_grammar::specs::Reading::at_end))]
fn read_between<S: Store>(
    reader: &mut Reader,
    store: &mut S,
    head: &Head,
    turn: &Turn,
) -> Result<Option<Header>, Halt<Refusal>>
    requires { IsHead (head_view head.now) }
    ensures passes { Passes (behind_between head.now) result (turn_view turn.now) (behind_head head.now)
        reader.old reader.new (S.state store.old) (S.state store.new) }
    ensures fits { IfOk result (λ o. IfSome o (λ size. Fits (turn_view turn.now) (head_view head.now) (header_view size))) }
    ensures moves { OnOk result (IsTaken reader.old reader.new) }
{
    let line = reader.number();
    take_line(reader, store, PieceFault::Mm(MmFault::Size))?;
    at_line(line, array_step(reader.text(), head, turn))
}

// Reads any comments and blank lines and the size line after them, which gives the size of the head's array.
#[tactic(auto, using(crate::proofs::PartLaws::halts_then))]
fn read_size<S: Store>(
    reader: &mut Reader,
    store: &mut S,
    head: &Head,
    turn: &Turn,
) -> Result<Header, Halt<Refusal>>
    requires { IsHead (head_view head.now) }
    ensures passes { Passes (behind_size head.now) result (turn_view turn.now) (behind_head head.now)
        reader.old reader.new (S.state store.old) (S.state store.new) }
    ensures fits { IfOk result (λ size. Fits (turn_view turn.now) (head_view head.now) (header_view size)) }
{
    loop {
        if let Some(size) = read_between(reader, store, head, turn)? {
            return Ok(size);
        }
    }
}

// Why reading a piece halts where reading a matrix file does.
fn halt_of(halt: Halt<MmErr>) -> Halt<Refusal>
    ensures { result ≡ halt_in halt }
{
    match halt {
        Halt::Bad(e) => Halt::Bad(Refusal {
            line: e.line,
            fault: PieceFault::Mm(e.what),
        }),
        Halt::Failed => Halt::Failed,
        Halt::Memory => Halt::Memory,
    }
}

// Reads the values after the size line, and the file to its end, into an array of this size.
fn read_array<S: Store>(
    alloc: Global,
    reader: &mut Reader,
    store: &mut S,
    head: &Head,
    size: &Header,
) -> Result<LocalArray, Halt<Refusal>>
    requires some { 1 ≤ size.now.rows }
    requires general { (header_view size.now).symmetry ≡ General }
    ensures gives { GivesAlways (array_piece (head_view head.now)) result reader.old.number
        (behind_size head.now size.now) (lines_left reader.old) (S.state store.old) (S.state store.new) }
    ensures rows { IfOk result (λ a. a.lld ≡ size.now.rows) }
    ensures columns { IfOk result (λ a. a.cols ≡ size.now.columns) }
{
    match read_values(alloc, reader, store, size) {
        Ok(words) => Ok(LocalArray::from_words(size.rows, size.columns, words)),
        Err(halt) => Err(halt_of(halt)),
    }
}

// Reads the open input to its end: the piece whose turn it is.
#[tactic(auto, using(crate::proofs::PartLaws::halts_then))]
fn read_open<S: Store>(alloc: Global, store: &mut S, turn: &Turn) -> Result<Piece, Halt<Refusal>>
    ensures gives { GivesPiece piece_view result (turn_view turn.now) 1 AtBanner (λ s. file_lines s.left)
        (S.state store.old) (S.state store.new) }
    ensures is_head { IfOk result (λ p. IsHead (head_view p.head)) }
    ensures has_turn { IfOk result (λ p. HasTurn (turn_view turn.now) (head_view p.head)) }
{
    let mut reader = Reader::new();
    read_banner(&mut reader, store)?;
    let head = read_head(&mut reader, store, turn)?;
    let size = read_size(&mut reader, store, &head, turn)?;
    let cells = read_array(alloc, &mut reader, store, &head, &size)?;
    Ok(Piece { head, cells })
}

/// Reads the file of a turn.
#[tactic(auto, using(crate::proofs::TurnLaws::held_piece, crate::proofs::TurnLaws::held_fault))]
pub(crate) fn read_turn<S: Store>(
    alloc: Global,
    store: &mut S,
    prefix: &str,
    turn: &Turn,
) -> Result<Piece, PieceErr>
    ensures { ReadsTurn result prefix.now (turn_view turn.now) (S.state store.old) (S.state store.new) }
{
    let name = match piece_name(alloc, prefix, turn.prow, turn.pcol) {
        Ok(text) => Name::new(text),
        Err(_) => return Err(PieceErr::NoMemory),
    };
    match store.open_read(name.as_str()) {
        Ok(()) => {}
        Err(StoreErr::Missing) => return Err(PieceErr::Missing(name)),
        Err(StoreErr::Failed) => return Err(PieceErr::Failed(name)),
    }
    match read_open(alloc, store, turn) {
        Ok(piece) => Ok(piece),
        Err(Halt::Bad(refusal)) => Err(PieceErr::Bad {
            name,
            line: refusal.line,
            fault: refusal.fault,
        }),
        Err(Halt::Failed) => Err(PieceErr::Failed(name)),
        Err(Halt::Memory) => Err(PieceErr::NoMemory),
    }
}
