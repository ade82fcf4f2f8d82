//! The numbers of a line.
ghost use Rattle.std.specs.Prelude.{◌≡◌};
ghost use Rattle.grid_lang.specs.WordKinds.{integer, number, rank_below};

use crate::fault::LangFault;
use line_text::read_i32;

/// Any number.
#[tactic(auto, unfolding(crate::specs::WordKinds::integer))]
pub(crate) fn read_any(word: &[u8]) -> Result<i32, LangFault>
    ensures { result ≡ integer word.now }
{
    match read_i32(word) {
        Some(number) => Ok(number),
        None => Err(LangFault::Number),
    }
}

/// A number of at least 0.
#[tactic(auto, using(crate::proofs::NumberSteps::good, crate::proofs::NumberSteps::negative, crate::proofs::NumberSteps::bad))]
pub(crate) fn read_number(word: &[u8]) -> Result<u32, LangFault>
    ensures { result ≡ number word.now }
{
    match read_any(word) {
        Ok(value) => {
            if value < 0 {
                Err(LangFault::Number)
            } else {
                Ok(value.unsigned_abs())
            }
        }
        Err(fault) => Err(fault),
    }
}

/// A number below that of the ranks.
#[tactic(auto, unfolding(crate::specs::WordKinds::rank_below))]
pub(crate) fn read_rank(ranks: u32, word: &[u8]) -> Result<u32, LangFault>
    ensures { result ≡ rank_below ranks word.now }
{
    match read_number(word) {
        Ok(rank) => {
            if rank < ranks {
                Ok(rank)
            } else {
                Err(LangFault::Number)
            }
        }
        Err(fault) => Err(fault),
    }
}
