//! The edges of a topology, in sending order.
ghost use Rattle.std.specs.Prelude.{◌≡◌, ◌≤◌, ◌<◌, ◌+◌, ◌-◌, ◌*◌, ◌^◌, ℕ, List, IfOk, OnOk, map};
ghost use Rattle.std.specs.List.{range_with_len};
ghost use Rattle.route_tree.specs.Parents.{highest_one, parent_of, number_of, place_of, edge_of, edges_of, HasBranches};
ghost use Rattle.route_tree.specs.Routes.{IsRoute, IsWithin};

use crate::Top;
use std::alloc::{AllocError, Global};

/// The greatest power of two that is at most k.
fn highest(k: u32) -> u32
    requires { 0 < k }
    ensures value { result ≡ highest_one k }
    ensures bound { result ≤ k }
{
    let mut bit = 1;
    while bit <= k / 2 {
        bit *= 2;
    }
    bit
}

/// The parent of a member by their relative numbers. The source has number 0.
fn parent(top: Top, n: u32, k: u32) -> u32
    requires top { HasBranches top }
    requires child { 0 < k }
    requires member { k < n }
    ensures value { result ≡ parent_of top n k }
    ensures member { result < n }
{
    match top {
        Top::I | Top::D => k - 1,
        Top::S if k <= n / 2 => k - 1,
        Top::S if k == n - 1 => 0,
        Top::S => k + 1,
        Top::M if k == n / 2 + 1 => 0,
        Top::M => k - 1,
        Top::H => k - highest(k),
        Top::F => 0,
        Top::T(branches) => (k - 1) / branches,
    }
}

/// The relative number of the member that the i-th edge ends at.
fn number(top: Top, n: u32, i: u32) -> u32
    requires limit { n ≤ 64 }
    requires edge { 0 < i }
    requires member { i < n }
    ensures value { result ≡ number_of top n i }
    ensures child { 0 < result }
    ensures member { result < n }
{
    match top {
        Top::S if i > n / 2 => n + n / 2 - i,
        _ => i,
    }
}

/// The position in the scope list of the member with a relative number.
fn place(top: Top, n: u32, source: u32, k: u32) -> u32
    requires limit { n ≤ 64 }
    requires source { source < n }
    requires member { k < n }
    ensures { result ≡ place_of top n source k }
{
    match top {
        Top::D => (source + (n - k)) % n,
        _ => (source + k) % n,
    }
}

/// The n-1 edges (from, to) of a scope with n members and this source, in sending order, by positions in the scope
/// list. A broadcast sends along them; a combine goes the opposite way, in the opposite order.
#[tactic(auto, using(crate::proofs::RouteLaws::edges_more))]
pub fn route(alloc: Global, top: Top, n: u32, source: u32) -> Result<Vec<(u32, u32)>, AllocError>
    requires source { source < n }
    requires limit { n ≤ 64 }
    requires branches { HasBranches top }
    ensures edges { IfOk result (λ edges. edges.items ≡ edges_of top n source) }
    ensures route { IfOk result (λ edges. IsRoute n source edges.items) }
    ensures near { top ≡ Top.H → IfOk result (λ edges. (d : ℕ) → n ≤ 2 ^ d → (m : ℕ) → m < n →
        IsWithin edges.items source d m) }
{
    let mut edges = Vec::with_capacity(alloc, n as usize)?;
    for i in 1..n {
        let child = number(top, n, i);
        let from = place(top, n, source, parent(top, n, child));
        edges.push((from, place(top, n, source, child)))?;
    }
    Ok(edges)
}
