//! The lines of declarations.
ghost use Rattle.std.specs.Prelude.{◌≡◌};
ghost use Rattle.grid_lang.specs.ReaderViews.{declared_of};
ghost use Rattle.grid_lang.specs.Table.{line_of};
ghost use Rattle.grid_lang.specs.Reading.{IsReadLine};
ghost use Rattle.grid_lang.specs.declared.keyword.Keyword.TheVariants as key;

use crate::fault::LangFault;
use crate::halt::Halt;
use crate::ident::Ident;
use crate::known::Known;
use crate::line::Line;
use crate::words::Words;
use std::alloc::Global;

/// `RANKS n`.
#[tactic(auto, unfolding(crate::specs::Table::line_of))]
pub(crate) fn ranks_line(known: &Known, words: &mut Words) -> Result<Line, LangFault>
    ensures { result ≡ line_of key.Ranks (declared_of known.now) words.old }
{
    if words.count() != 1 {
        return Err(LangFault::Words);
    }
    let n = words.number()?;
    Ok(Line::Ranks { n })
}

/// `GRID name order n n`.
#[tactic(auto, unfolding(crate::specs::Table::line_of))]
pub(crate) fn grid_line(known: &Known, words: &mut Words) -> Result<Line, LangFault>
    ensures { result ≡ line_of key.Grid (declared_of known.now) words.old }
{
    if words.count() != 4 {
        return Err(LangFault::Words);
    }
    words.new_name(known)?;
    let order = words.order()?;
    let nprow = words.number()?;
    let npcol = words.number()?;
    Ok(Line::Grid {
        order,
        nprow,
        npcol,
    })
}

/// `MAP name n n` and NPROW*NPCOL numbers n.
#[tactic(auto, unfolding(crate::specs::Table::line_of))]
pub(crate) fn map_line(alloc: Global, known: &Known, words: &mut Words) -> Result<Line, Halt>
    ensures { IsReadLine (line_of key.Map (declared_of known.now) words.old) result }
{
    if !words.has_map_size() {
        return Err(Halt::Bad(LangFault::Words));
    }
    words.new_name(known)?;
    let nprow = words.number()?;
    let npcol = words.number()?;
    match words.numbers(alloc) {
        Ok(ranks) => Ok(Line::Map {
            nprow,
            npcol,
            ranks,
        }),
        Err(halt) => Err(halt),
    }
}

/// `ARRAY name G M N MB NB RSRC CSRC` and optionally `LLD`.
#[tactic(auto, using(crate::proofs::IdentSteps::name_is_ascii), unfolding(crate::specs::Table::line_of))]
pub(crate) fn array_line(alloc: Global, known: &Known, words: &mut Words) -> Result<Line, Halt>
    ensures { IsReadLine (line_of key.Array (declared_of known.now) words.old) result }
{
    let count = words.count();
    if count != 8 && count != 9 {
        return Err(Halt::Bad(LangFault::Words));
    }
    let name = words.new_name(known)?;
    let grid = words.grid(known)?;
    let m = words.any()?;
    let n = words.any()?;
    let mb = words.any()?;
    let nb = words.any()?;
    let rsrc = words.any()?;
    let csrc = words.any()?;
    let lld = words.lead()?;
    let name = Ident::new(alloc, name)?;
    Ok(Line::Array {
        name,
        grid,
        m,
        n,
        mb,
        nb,
        rsrc,
        csrc,
        lld,
    })
}

/// `MATRIX name n n`.
#[tactic(auto, using(crate::proofs::IdentSteps::name_is_ascii), unfolding(crate::specs::Table::line_of))]
pub(crate) fn matrix_line(alloc: Global, known: &Known, words: &mut Words) -> Result<Line, Halt>
    ensures { IsReadLine (line_of key.Matrix (declared_of known.now) words.old) result }
{
    if words.count() != 3 {
        return Err(Halt::Bad(LangFault::Words));
    }
    let name = words.new_name(known)?;
    let lld = words.number()?;
    let cols = words.number()?;
    let name = Ident::new(alloc, name)?;
    Ok(Line::Matrix { name, lld, cols })
}

/// `LOAD X file`.
#[tactic(auto, unfolding(crate::specs::Table::line_of))]
pub(crate) fn load_line(alloc: Global, known: &Known, words: &mut Words) -> Result<Line, Halt>
    ensures { IsReadLine (line_of key.Load (declared_of known.now) words.old) result }
{
    if words.count() != 2 {
        return Err(Halt::Bad(LangFault::Words));
    }
    let array = words.array(known)?;
    let file = words.file()?;
    let file = Ident::new(alloc, file)?;
    Ok(Line::Load { array, file })
}

/// `FILL Y a b c d`.
#[tactic(auto, unfolding(crate::specs::Table::line_of))]
pub(crate) fn fill_line(known: &Known, words: &mut Words) -> Result<Line, LangFault>
    ensures { result ≡ line_of key.Fill (declared_of known.now) words.old }
{
    if words.count() != 5 {
        return Err(LangFault::Words);
    }
    let array = words.either(known)?;
    let a = words.any()?;
    let b = words.any()?;
    let c = words.any()?;
    let d = words.any()?;
    Ok(Line::Fill { array, a, b, c, d })
}
