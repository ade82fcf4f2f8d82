//! Texts that are saved one after the other, each as a file of its own, with one opening each.
#![tactic(auto)]

mod list;
mod save_err;
mod saving;

pub use list::SaveList;
pub use save_err::SaveErr;
pub use saving::save_all;
