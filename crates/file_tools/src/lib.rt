//! The commands of gridtool on files: the top call.
#![tactic(auto)]

mod check;
mod distribution;
mod join;
mod load;
mod moves;
mod names;
mod reading;
mod run;
mod saving;
mod split;
mod split_files;
mod target;
mod tell;
mod tool;
mod trouble;

pub use command_walks::Status;
pub use moves::{MovedFiles, save_moved};
pub use names::{LIMIT, PieceNames};
pub use reading::read_pieces;
pub use run::give_results;
pub use target::Target;
pub use tell::{no_memory, report};
pub use tool::{file_named, plain_tool};
pub use trouble::Trouble;
