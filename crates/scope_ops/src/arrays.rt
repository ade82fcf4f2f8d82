//! Whether the arrays of a combine's members serve.

ghost use Rattle.std.specs.Prelude.{◌≡◌, ℕ, ◌<◌, ◌≤◌, length, slice_index, Ok, Err, MatchOption, OnOk};
ghost use Rattle.pack_words.specs.GridShapes.{IsShapes};
ghost use Rattle.scope_ops.specs.Scopes.{all_below};
ghost use Rattle.scope_ops.specs.CombineRefusals.{same_arrays, has_columns, is_in_arrays, low_lead, lead_fault, first_lead, arrays_fault};
ghost use Rattle.scope_ops.specs.CombineOps.{AllFitPart, RcFit, AreThere};

use crate::part::Part;
use crate::scope_err::ScopeErr;
use pack_words::Shapes;

// Whether two of the part's array, RA and CA are one.
fn same_arrays(part: &Part, rc: Option<(u32, u32)>) -> bool
    ensures { result ≡ same_arrays part.now rc }
{
    match rc {
        Some((ra, ca)) => part.array == ra || part.array == ca || ra == ca,
        None => false,
    }
}

// Whether RA and CA have as many columns as the part, on a rank.
fn has_columns(shapes: &Shapes, rank: u32, part: &Part, rc: Option<(u32, u32)>) -> bool
    requires rank { rank < shapes.now.ranks }
    requires arrays { AreThere shapes.now part.now rc }
    ensures { result ≡ has_columns shapes.now rank part.now rc }
{
    match rc {
        Some((ra, ca)) => part.n <= shapes.of(rank, ra).1 && part.n <= shapes.of(rank, ca).1,
        None => true,
    }
}

// Whether the part fits every member, and RA and CA have enough columns there.
#[tactic(auto, using(crate::proofs::Below::below_more, crate::proofs::Below::below_fails))]
fn are_in_arrays(shapes: &Shapes, members: &[u32], part: &Part, rc: Option<(u32, u32)>) -> bool
    requires within { (k : ℕ) → k < length members.now → slice_index members.now k < shapes.now.ranks }
    requires few { length members.now ≤ 64 }
    requires arrays { AreThere shapes.now part.now rc }
    ensures { result ≡ all_below (is_in_arrays shapes.now members.now part.now rc) (length members.now) }
{
    for k in 0..members.len() as u32 {
        if !is_in_arrays(shapes, members, part, rc, k) {
            return false;
        }
    }
    true
}

// The same of one member.
fn is_in_arrays(
    shapes: &Shapes,
    members: &[u32],
    part: &Part,
    rc: Option<(u32, u32)>,
    k: u32,
) -> bool
    requires within { (k : ℕ) → k < length members.now → slice_index members.now k < shapes.now.ranks }
    requires member { k < length members.now }
    requires arrays { AreThere shapes.now part.now rc }
    ensures { result ≡ is_in_arrays shapes.now members.now part.now rc k }
{
    let rank = members[k as usize];
    part.fits(shapes.of(rank, part.array)) && has_columns(shapes, rank, part, rc)
}

// A leading dimension below so many rows.
fn low_lead(lead: u32, rows: u32) -> Result<(), ScopeErr>
    ensures { MatchOption (low_lead lead rows) (result ≡ Ok tt) (λ e. result ≡ Err e) }
{
    if lead < rows {
        return Err(ScopeErr::BadRcLead(lead, rows));
    }
    Ok(())
}

// RA and CA have leading dimensions of at least the part's rows, on a rank.
fn check_lead(
    shapes: &Shapes,
    rank: u32,
    part: &Part,
    rc: Option<(u32, u32)>,
) -> Result<(), ScopeErr>
    requires rank { rank < shapes.now.ranks }
    requires arrays { AreThere shapes.now part.now rc }
    ensures { MatchOption (lead_fault shapes.now part.now rc rank) (result ≡ Ok tt) (λ e. result ≡ Err e) }
{
    match rc {
        Some((ra, ca)) => {
            if let Err(e) = low_lead(shapes.of(rank, ra).0, part.m) {
                return Err(e);
            }
            low_lead(shapes.of(rank, ca).0, part.m)
        }
        None => Ok(()),
    }
}

// And on every member, in scope order.
fn check_leads(
    shapes: &Shapes,
    members: &[u32],
    part: &Part,
    rc: Option<(u32, u32)>,
) -> Result<(), ScopeErr>
    requires within { (k : ℕ) → k < length members.now → slice_index members.now k < shapes.now.ranks }
    requires few { length members.now ≤ 64 }
    requires arrays { AreThere shapes.now part.now rc }
    ensures { MatchOption (first_lead shapes.now members.now part.now rc) (result ≡ Ok tt) (λ e. result ≡ Err e) }
{
    for k in 0..members.len() as u32 {
        match check_lead(shapes, members[k as usize], part, rc) {
            Ok(()) => {}
            Err(e) => return Err(e),
        }
    }
    Ok(())
}

// The arrays serve, or why not.
pub(crate) fn check_arrays(
    shapes: &Shapes,
    members: &[u32],
    part: &Part,
    rc: Option<(u32, u32)>,
) -> Result<(), ScopeErr>
    requires within { (k : ℕ) → k < length members.now → slice_index members.now k < shapes.now.ranks }
    requires few { length members.now ≤ 64 }
    requires shapes { IsShapes shapes.now }
    requires arrays { AreThere shapes.now part.now rc }
    ensures answer { MatchOption (arrays_fault shapes.now members.now part.now rc) (result ≡ Ok tt) (λ e. result ≡ Err e) }
    ensures part { OnOk result (AllFitPart shapes.now members.now part.now) }
    ensures rc { OnOk result (RcFit shapes.now members.now part.now rc) }
{
    if same_arrays(part, rc) {
        return Err(ScopeErr::SameArray);
    }
    if !are_in_arrays(shapes, members, part, rc) {
        return Err(ScopeErr::OutOfArray);
    }
    check_leads(shapes, members, part, rc)
}
