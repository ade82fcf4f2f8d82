//! LOAD lines.

ghost use Rattle.std.specs.Prelude.{◌≡◌, ◌≤◌, ◌^◌, Some, pos, slice_get, IfOk, OnOk};
ghost use Rattle.proc_grid.specs.Grid.{Grid};
ghost use Rattle.descriptor.specs.Bounds.{part};
ghost use Rattle.descriptor.specs.Good.{IsGood};
ghost use Rattle.descriptor.specs.declared.spread.Spread.{Spread as SpreadOf};
ghost use Rattle.store_io.specs.Outside.{Outside};
ghost use Rattle.text_io.specs.Reading.{OnlyReads};
ghost use Rattle.mm_text.specs.Loading.{matrix_of};
ghost use Rattle.msg_core.specs.Plans.{PlanView};
ghost use Rattle.pack_words.specs.declared.rank_op.RankOp.{RankOp as Operation};
ghost use Rattle.grid_lang.specs.declared.line.Line.TheVariants.{Load};
ghost use Rattle.program_meaning.specs.Declarations.{load_line};
ghost use Rattle.grid_exec.specs.Holding.{HoldsArrays};
ghost use Rattle.grid_exec.specs.Reading.{standing, IsHeld, IsLineFilled, HasPlanCause};
ghost use Rattle.grid_exec.specs.Unread.{IsUnreadErr};
ghost use Rattle.grid_exec.specs.Words.{size_fault, fault_in};

use crate::err::ExecErr;
use crate::filling::grid_of;
use crate::held::Held;
use crate::stopping::stopped;
use array_contents::ArrayContents;
use descriptor::Spread;
use grid_lang::Ident;
use line_plans::{Declared, Halt};
use mm_text::{LoadErr, Whole, read_matrix};
use piece_file::Name;
use program_meaning::ExecFault;
use std::alloc::Global;
use store_io::Store;

// A number of at most 2^24, as such.
fn natural(value: i64) -> u32
    requires whole { value ≡ pos (part value) }
    requires few { part value ≤ 2 ^ 24 }
    ensures { result ≡ part value }
{
    value as u32
}

// Refuses a matrix of another size than the array.
fn check_size(whole: &Whole, spread: &Spread) -> Result<(), ExecFault>
    requires { (g : Grid) × IsGood spread.now g }
    ensures rows { OnOk result (whole.now.rows ≡ part spread.now.desc.m) }
    ensures columns { OnOk result (whole.now.columns ≡ part spread.now.desc.n) }
    ensures fault { fault_in result ≡ size_fault whole.now spread.now }
{
    let rows = natural(spread.desc.m);
    let columns = natural(spread.desc.n);
    if whole.rows == rows && whole.columns == columns {
        Ok(())
    } else {
        Err(ExecFault::Size(whole.rows, whole.columns, rows, columns))
    }
}

// What is held, with arrays that hold.
fn held_with(declared: Declared, contents: ArrayContents) -> Held
    requires { HoldsArrays declared.shapes contents }
    ensures declared { result.declared ≡ declared }
    ensures contents { result.contents ≡ contents }
{
    Held { declared, contents }
}

// The elements of a matrix that was read, if it has the array's size.
fn put_matrix(alloc: Global, held: Held, array: u32, whole: &Whole) -> Result<Held, Halt>
    requires { (s : SpreadOf) × (slice_get held.declared.spreads.items array ≡ Some (Some s)) }
    ensures declared { IfOk result (λ h. h.declared ≡ held.declared) }
    ensures done { (p : PlanView Operation) → IsHeld result p (load_line (Some (matrix_of whole.now)) array (standing held p)) }
{
    let Held {
        declared,
        mut contents,
    } = held;
    let _ranks = declared.shapes.ranks();
    let spread = declared.spread(array);
    let ctx = grid_of(&declared, spread);
    if let Err(fault) = check_size(whole, spread) {
        return Err(Halt::Fault(fault));
    }
    match contents.load_matrix(alloc, array, spread, ctx, whole) {
        Ok(()) => Ok(held_with(declared, contents)),
        Err(_) => Err(Halt::NoMemory),
    }
}

// Why a file isn't read.
fn unread(name: Name, err: LoadErr) -> ExecErr
    ensures { IsUnreadErr result name err }
{
    match err {
        LoadErr::NoMemory => ExecErr::NoMemory,
        other => ExecErr::Load { name, err: other },
    }
}

/// What is held after a LOAD line: its file is read whole, and then its matrix is put into the array.
pub(crate) fn load<S: Store>(
    alloc: Global,
    held: Held,
    number: u32,
    array: u32,
    file: &Ident,
    store: &mut S,
) -> Result<Held, ExecErr>
    requires { (s : SpreadOf) × (slice_get held.declared.spreads.items array ≡ Some (Some s)) }
    ensures declared { IfOk result (λ h. h.declared ≡ held.declared) }
    ensures done { (before : Outside) (p : PlanView Operation) → OnlyReads before (S.state store.old) →
        IsLineFilled result before (record { number = number; line = Load array file.now }) p (standing held p) }
    ensures same { OnlyReads (S.state store.old) (S.state store.new) }
    ensures cause { HasPlanCause result (S.state store.old) (S.state store.new) }
{
    let Ok(name) = String::from_str(alloc, file.as_str()) else {
        return Err(ExecErr::NoMemory);
    };
    match read_matrix(alloc, store, file.as_str()) {
        Ok(whole) => match put_matrix(alloc, held, array, &whole) {
            Ok(held) => Ok(held),
            Err(halt) => Err(stopped(number, halt)),
        },
        Err(e) => Err(unread(Name::new(name), e)),
    }
}
