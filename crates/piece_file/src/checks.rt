//! What the numbers of a head's line have to keep.
ghost use Rattle.std.specs.Prelude.{◌≡◌, ◌≤◌, ◌-◌, ◌*◌, ◌^◌, ◌||◌, ◌&&◌, nat_lt, [], ◌∷◌, IfErr, OnOk, None, Some, Ok, pos, true, false, IfOk, IfSome, IfNone, MatchOption, ℤ};
ghost use Rattle.descriptor.specs.Bounds.{is_outside, part};
ghost use Rattle.descriptor.specs.InfoOf.{info_of};
ghost use Rattle.descriptor.specs.Entries.{seat_entries};
ghost use Rattle.piece_grammar.specs.Desc.{is_off_grid, desc_info, is_number, differs_from, head_of as head_of_desc};
ghost use Rattle.piece_grammar.specs.FaultTable.{first_fault, disagrees, is_elsewhere, desc_rows};
ghost use Rattle.piece_file.specs.HeadView.{head_view};
ghost use Rattle.piece_file.specs.Asking.{desc_view, turn_view, Finds};

use crate::desc_line::Desc;
use crate::fault::PieceFault;
use crate::head::Head;
use crate::turn::Turn;
use descriptor::{Info, Seat, descinit_at};

// The most processes of a grid.
const MOST: u32 = 64;

// A number that is at least 0, as such, and 0 for others.
fn part_of(value: i32) -> u32
    ensures { result ≡ part value }
{
    if value < 0 { 0 } else { value as u32 }
}

// Whether a number isn't between these, both ends included.
#[tactic(auto, unfolding(descriptor::specs::Bounds::is_outside))]
fn outside(value: i32, low: u32, high: u32) -> bool
    ensures { result ≡ is_outside value low high }
{
    i64::from(value) < i64::from(low) || i64::from(value) > i64::from(high)
}

// Whether a number is this one.
fn is_same(value: i32, number: u32) -> bool
    ensures { result ≡ is_number value number }
{
    i64::from(value) == i64::from(number)
}

// Whether a grid can't have so many rows and columns.
fn bad_shape(desc: &Desc) -> bool
    ensures { let d = desc_view desc.now in
        result ≡ (is_outside d.nprow 1 64 || is_outside d.npcol 1 64 || nat_lt 64 (part d.nprow * part d.npcol)) }
{
    let places = u64::from(part_of(desc.nprow)) * u64::from(part_of(desc.npcol));
    outside(desc.nprow, 1, MOST) || outside(desc.npcol, 1, MOST) || places > u64::from(MOST)
}

// Whether a number is none of those below a bound.
fn not_below(value: i32, bound: i32) -> bool
    ensures { result ≡ is_outside value 0 (part bound - 1) }
{
    outside(value, 0, part_of(bound).saturating_sub(1))
}

// Whether the numbers name no process of a grid of at most 64.
fn off_grid(desc: &Desc) -> bool
    ensures { result ≡ is_off_grid (desc_view desc.now) }
{
    bad_shape(desc) || not_below(desc.prow, desc.nprow) || not_below(desc.pcol, desc.npcol)
}

// Whether the sizes of the grid and of the matrix are those of a head.
fn same_sizes(desc: &Desc, first: &Head) -> bool
    ensures { let d = desc_view desc.now in let h = head_view first.now in
        result ≡ (is_number d.nprow h.nprow && is_number d.npcol h.npcol && is_number d.m h.m && is_number d.n h.n) }
{
    is_same(desc.nprow, first.nprow)
        && is_same(desc.npcol, first.npcol)
        && is_same(desc.m, first.m)
        && is_same(desc.n, first.n)
}

// Whether the grid or the whole matrix is another one than that of a head.
fn differs(desc: &Desc, first: &Head) -> bool
    ensures { result ≡ differs_from (desc_view desc.now) (head_view first.now) }
{
    !(same_sizes(desc, first)
        && is_same(desc.mb, first.mb)
        && is_same(desc.nb, first.nb)
        && is_same(desc.rsrc, first.rsrc)
        && is_same(desc.csrc, first.csrc))
}

fn differs_from_first(desc: &Desc, turn: &Turn) -> bool
    ensures { result ≡ disagrees (turn_view turn.now).first (desc_view desc.now) }
{
    match turn.first {
        Some(first) => differs(desc, &first),
        None => false,
    }
}

// Whether the process isn't the one that is asked for.
fn elsewhere(desc: &Desc, turn: &Turn) -> bool
    ensures { result ≡ is_elsewhere (turn_view turn.now) (desc_view desc.now) }
{
    !(is_same(desc.prow, turn.prow) && is_same(desc.pcol, turn.pcol))
}

// The head of numbers that are all at least 0.
fn head_of(desc: &Desc) -> Head
    ensures { head_view result ≡ head_of_desc (desc_view desc.now) }
{
    Head {
        nprow: part_of(desc.nprow),
        npcol: part_of(desc.npcol),
        prow: part_of(desc.prow),
        pcol: part_of(desc.pcol),
        m: part_of(desc.m),
        n: part_of(desc.n),
        mb: part_of(desc.mb),
        nb: part_of(desc.nb),
        rsrc: part_of(desc.rsrc),
        csrc: part_of(desc.csrc),
        lld: part_of(desc.lld),
    }
}

// What `descinit` finds of the numbers at this seat.
fn info_at(desc: &Desc, seat: Seat) -> Option<Info>
    ensures { let d = desc_view desc.now in
        result ≡ info_of (seat_entries seat d.m d.n d.mb d.nb d.rsrc d.csrc d.lld) }
{
    let found = descinit_at(
        seat,
        i64::from(desc.m),
        i64::from(desc.n),
        i64::from(desc.mb),
        i64::from(desc.nb),
        i64::from(desc.rsrc),
        i64::from(desc.csrc),
        i64::from(desc.lld),
    );
    found.err()
}

// The INFO of the numbers for their process, on a grid of their shape.
fn entry_info(desc: &Desc, head: &Head) -> Option<Info>
    requires on_grid { is_off_grid (desc_view desc.now) ≡ false }
    requires same { head_view head.now ≡ head_of_desc (desc_view desc.now) }
    ensures { result ≡ desc_info (desc_view desc.now) }
{
    let seat = Seat {
        nprow: head.nprow,
        npcol: head.npcol,
        row: head.prow,
    };
    info_at(desc, seat)
}

/// The head of these numbers, or what is wrong with them, where it is this piece's turn.
#[tactic(auto, using(crate::proofs::CheckSteps::row_grid, crate::proofs::CheckSteps::row_differs, crate::proofs::CheckSteps::row_entry, crate::proofs::CheckSteps::row_elsewhere))]
pub(crate) fn check_desc(desc: &Desc, turn: &Turn) -> Result<Head, PieceFault>
    ensures { Finds result (turn_view turn.now) (desc_view desc.now) }
{
    if off_grid(desc) {
        return Err(PieceFault::DescLine);
    }
    if differs_from_first(desc, turn) {
        return Err(PieceFault::Disagree);
    }
    let head = head_of(desc);
    if let Some(info) = entry_info(desc, &head) {
        return Err(PieceFault::DescEntry(info));
    }
    if elsewhere(desc, turn) {
        return Err(PieceFault::WrongPlace);
    }
    Ok(head)
}
