//! The lines of exchanges.
ghost use Rattle.std.specs.Prelude.{◌≡◌};
ghost use Rattle.grid_lang.specs.ReaderViews.{declared_of};
ghost use Rattle.grid_lang.specs.Table.{line_of};
ghost use Rattle.grid_lang.specs.declared.keyword.Keyword.TheVariants as key;

use crate::fault::LangFault;
use crate::known::Known;
use crate::line::{Line, Mr};
use crate::words::Words;

/// `SEND G p q Y i j M N rdest cdest` and optionally `UPLO DIAG`.
#[tactic(auto, unfolding(crate::specs::Table::line_of))]
pub(crate) fn send_line(known: &Known, words: &mut Words) -> Result<Line, LangFault>
    ensures { result ≡ line_of key.Send (declared_of known.now) words.old }
{
    let count = words.count();
    if count != 10 && count != 12 {
        return Err(LangFault::Words);
    }
    let grid = words.grid(known)?;
    let p = words.number()?;
    let q = words.number()?;
    let area = words.area(known)?;
    let rdest = words.number()?;
    let cdest = words.number()?;
    let tri = words.triangle()?;
    Ok(Line::Send {
        grid,
        p,
        q,
        area,
        rdest,
        cdest,
        tri,
    })
}

/// `RECV G p q Y i j M N rsrc csrc` and optionally `UPLO DIAG`.
#[tactic(auto, unfolding(crate::specs::Table::line_of))]
pub(crate) fn recv_line(known: &Known, words: &mut Words) -> Result<Line, LangFault>
    ensures { result ≡ line_of key.Recv (declared_of known.now) words.old }
{
    let count = words.count();
    if count != 10 && count != 12 {
        return Err(LangFault::Words);
    }
    let grid = words.grid(known)?;
    let p = words.number()?;
    let q = words.number()?;
    let area = words.area(known)?;
    let rsrc = words.number()?;
    let csrc = words.number()?;
    let tri = words.triangle()?;
    Ok(Line::Recv {
        grid,
        p,
        q,
        area,
        rsrc,
        csrc,
        tri,
    })
}

/// `BCAST G scope top rsrc csrc Y i j M N` and optionally `UPLO DIAG`.
#[tactic(auto, unfolding(crate::specs::Table::line_of))]
pub(crate) fn bcast_line(known: &Known, words: &mut Words) -> Result<Line, LangFault>
    ensures { result ≡ line_of key.Bcast (declared_of known.now) words.old }
{
    let count = words.count();
    if count != 10 && count != 12 {
        return Err(LangFault::Words);
    }
    let grid = words.grid(known)?;
    let scope = words.scope()?;
    let top = words.topology()?;
    let rsrc = words.number()?;
    let csrc = words.number()?;
    let area = words.area(known)?;
    let tri = words.triangle()?;
    Ok(Line::Bcast {
        grid,
        scope,
        top,
        rsrc,
        csrc,
        area,
        tri,
    })
}

/// `SUM G scope top rdest cdest Y i j M N`.
#[tactic(auto, unfolding(crate::specs::Table::line_of))]
pub(crate) fn sum_line(known: &Known, words: &mut Words) -> Result<Line, LangFault>
    ensures { result ≡ line_of key.Sum (declared_of known.now) words.old }
{
    if words.count() != 10 {
        return Err(LangFault::Words);
    }
    let grid = words.grid(known)?;
    let scope = words.scope()?;
    let top = words.topology()?;
    let dest = words.destination()?;
    let area = words.area(known)?;
    Ok(Line::Sum {
        grid,
        scope,
        top,
        dest,
        area,
    })
}

/// `AMX G scope top rdest cdest Y i j M N` and optionally `RA CA`.
#[tactic(auto, unfolding(crate::specs::Table::line_of))]
pub(crate) fn amx_line(known: &Known, words: &mut Words) -> Result<Line, LangFault>
    ensures { result ≡ line_of key.Amx (declared_of known.now) words.old }
{
    let count = words.count();
    if count != 10 && count != 12 {
        return Err(LangFault::Words);
    }
    let grid = words.grid(known)?;
    let scope = words.scope()?;
    let top = words.topology()?;
    let dest = words.destination()?;
    let area = words.area(known)?;
    let rc = words.places(known)?;
    Ok(Line::Amx {
        grid,
        scope,
        top,
        dest,
        area,
        rc,
    })
}

/// `AMN G scope top rdest cdest Y i j M N` and optionally `RA CA`.
#[tactic(auto, unfolding(crate::specs::Table::line_of))]
pub(crate) fn amn_line(known: &Known, words: &mut Words) -> Result<Line, LangFault>
    ensures { result ≡ line_of key.Amn (declared_of known.now) words.old }
{
    let count = words.count();
    if count != 10 && count != 12 {
        return Err(LangFault::Words);
    }
    let grid = words.grid(known)?;
    let scope = words.scope()?;
    let top = words.topology()?;
    let dest = words.destination()?;
    let area = words.area(known)?;
    let rc = words.places(known)?;
    Ok(Line::Amn {
        grid,
        scope,
        top,
        dest,
        area,
        rc,
    })
}

/// `BARRIER G scope`.
#[tactic(auto, unfolding(crate::specs::Table::line_of))]
pub(crate) fn barrier_line(known: &Known, words: &mut Words) -> Result<Line, LangFault>
    ensures { result ≡ line_of key.Barrier (declared_of known.now) words.old }
{
    if words.count() != 2 {
        return Err(LangFault::Words);
    }
    let grid = words.grid(known)?;
    let scope = words.scope()?;
    Ok(Line::Barrier { grid, scope })
}

/// `GEMR2D M N X IA JA X IB JB G`.
#[tactic(auto, unfolding(crate::specs::Table::line_of))]
pub(crate) fn gemr2d_line(known: &Known, words: &mut Words) -> Result<Line, LangFault>
    ensures { result ≡ line_of key.Gemr2d (declared_of known.now) words.old }
{
    if words.count() != 9 {
        return Err(LangFault::Words);
    }
    let m = words.any()?;
    let n = words.any()?;
    let a = words.array(known)?;
    let ia = words.any()?;
    let ja = words.any()?;
    let b = words.array(known)?;
    let ib = words.any()?;
    let jb = words.any()?;
    let grid = words.grid(known)?;
    let mr = Mr {
        m,
        n,
        a,
        ia,
        ja,
        b,
        ib,
        jb,
        grid,
    };
    Ok(Line::Gemr2d { mr })
}

/// `TRMR2D UPLO DIAG M N X IA JA X IB JB G`.
#[tactic(auto, unfolding(crate::specs::Table::line_of))]
pub(crate) fn trmr2d_line(known: &Known, words: &mut Words) -> Result<Line, LangFault>
    ensures { result ≡ line_of key.Trmr2d (declared_of known.now) words.old }
{
    if words.count() != 11 {
        return Err(LangFault::Words);
    }
    let uplo = words.character()?;
    let diag = words.character()?;
    let m = words.any()?;
    let n = words.any()?;
    let a = words.array(known)?;
    let ia = words.any()?;
    let ja = words.any()?;
    let b = words.array(known)?;
    let ib = words.any()?;
    let jb = words.any()?;
    let grid = words.grid(known)?;
    let mr = Mr {
        m,
        n,
        a,
        ia,
        ja,
        b,
        ib,
        jb,
        grid,
    };
    Ok(Line::Trmr2d { uplo, diag, mr })
}
