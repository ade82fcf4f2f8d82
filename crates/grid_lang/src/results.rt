//! The lines of results.
ghost use Rattle.std.specs.Prelude.{◌≡◌};
ghost use Rattle.grid_lang.specs.ReaderViews.{declared_of};
ghost use Rattle.grid_lang.specs.Table.{line_of};
ghost use Rattle.grid_lang.specs.Reading.{IsReadLine};
ghost use Rattle.grid_lang.specs.declared.keyword.Keyword.TheVariants as key;

use crate::fault::LangFault;
use crate::halt::Halt;
use crate::ident::Ident;
use crate::known::Known;
use crate::line::Line;
use crate::named::Named;
use crate::words::Words;
use std::alloc::Global;

/// `SAVE X file`, `SAVE X prefix PIECES`.
#[tactic(auto, unfolding(crate::specs::Table::line_of))]
pub(crate) fn save_line(alloc: Global, known: &Known, words: &mut Words) -> Result<Line, Halt>
    ensures { IsReadLine (line_of key.Save (declared_of known.now) words.old) result }
{
    let count = words.count();
    if count == 3 {
        let array = words.array(known)?;
        let prefix = words.file()?;
        words.pieces()?;
        let prefix = Ident::new(alloc, prefix)?;
        return Ok(Line::SavePieces { array, prefix });
    }
    if count != 2 {
        return Err(Halt::Bad(LangFault::Words));
    }
    let array = words.array(known)?;
    let file = words.file()?;
    let file = Ident::new(alloc, file)?;
    Ok(Line::Save { array, file })
}

/// `PRINT X`, `PRINT V n`.
#[tactic(auto, unfolding(crate::specs::Table::line_of, crate::specs::WordKinds::array, crate::specs::WordKinds::matrix))]
pub(crate) fn print_line(known: &Known, words: &mut Words) -> Result<Line, LangFault>
    ensures { result ≡ line_of key.Print (declared_of known.now) words.old }
{
    let count = words.count();
    let Some(word) = words.next() else {
        return Err(LangFault::Words);
    };
    match known.named(word) {
        Some(Named::Array(array)) => {
            if count != 1 {
                return Err(LangFault::Words);
            }
            Ok(Line::PrintArray { array })
        }
        Some(Named::Matrix(array)) => {
            if count != 2 {
                return Err(LangFault::Words);
            }
            let rank = words.rank(known)?;
            Ok(Line::PrintMatrix { array, rank })
        }
        Some(Named::Grid(_)) => Err(LangFault::Name),
        None => Err(LangFault::Name),
    }
}
