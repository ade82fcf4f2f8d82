//! The calls of the BLACS on plans: point to point, broadcasts and combines of a scope.
#![tactic(auto)]

mod arrays;
mod barriers;
mod broadcast;
mod combines;
mod gather;
mod laws;
mod own;
mod part;
mod passing;
mod places;
mod point;
mod pushes;
mod relay;
mod scope_err;
mod scopes;
mod scratch;

pub use barriers::barrier;
pub use broadcast::{igebs2d, itrbs2d};
pub use combines::{igamn2d, igamx2d, igsum2d};
pub use laws::broadcast_along_any_route;
pub use part::{Part, Spot};
pub use point::{igerv2d, igesd2d, itrrv2d, itrsd2d};
pub use scope_err::ScopeErr;
pub use scratch::scratch_of;
