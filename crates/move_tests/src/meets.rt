//! Meets of pairs and their number over all pairs: worked rows and the walking body over drawn moves.
ghost use Rattle.std.specs.Prelude.{◌≡◌};

use crate::compare::same_meets;
use crate::walk::fits;
use block_meet::{Side, Sub, count_meets};
use msg_core::{Picks, SeedPicks};
use pack_words::{Cut, Diag, Shape, Uplo};
use std::alloc::{AllocError, Global};
use std::test::Fail;

fn side(block: u32, nprow: u32, npcol: u32) -> Side
    ensures rows { result.mb ≡ block }
    ensures columns { result.nb ≡ block }
    ensures row_source { result.rsrc ≡ 0 }
    ensures column_source { result.csrc ≡ 0 }
    ensures row_processes { result.nprow ≡ nprow }
    ensures column_processes { result.npcol ≡ npcol }
{
    Side {
        mb: block,
        nb: block,
        rsrc: 0,
        csrc: 0,
        nprow,
        npcol,
    }
}

fn whole(m: u32, n: u32) -> Sub
    ensures height { result.cut.m ≡ m }
    ensures width { result.cut.n ≡ n }
    ensures row_of_a { result.ia ≡ 0 }
    ensures column_of_a { result.ja ≡ 0 }
    ensures row_of_b { result.ib ≡ 0 }
    ensures column_of_b { result.jb ≡ 0 }
{
    Sub {
        cut: Cut {
            shape: Shape::Ge,
            m,
            n,
        },
        ia: 0,
        ja: 0,
        ib: 0,
        jb: 0,
    }
}

// A matrix of 1,000 by 1,000 from 4 by 4 processes in blocks of 64 to 2 by 8 in blocks of 32.
#[test]
fn a_thousand_by_a_thousand(rt: HostRuntime) -> Result<(), Fail> {
    let count = count_meets(
        rt.alloc(),
        &whole(1000, 1000),
        &side(64, 4, 4),
        &side(32, 2, 8),
    )?;
    assert_eq!(rt; count, 1024);
    Ok(())
}

#[test]
fn nothing_meets_nothing(rt: HostRuntime) -> Result<(), Fail> {
    assert_eq!(rt;
        count_meets(rt.alloc(), &whole(0, 7), &side(2, 1, 2), &side(3, 2, 1))?,
        0
    );
    assert_eq!(rt;
        count_meets(rt.alloc(), &whole(7, 0), &side(2, 1, 2), &side(3, 2, 1))?,
        0
    );
    Ok(())
}

fn drawn_shape(picks: &mut SeedPicks) -> Shape {
    match picks.pick(5) {
        0 => Shape::Ge,
        1 => Shape::Tr(Uplo::Upper, Diag::N),
        2 => Shape::Tr(Uplo::Upper, Diag::U),
        3 => Shape::Tr(Uplo::Lower, Diag::N),
        _ => Shape::Tr(Uplo::Lower, Diag::U),
    }
}

fn drawn_side(picks: &mut SeedPicks) -> Side {
    let nprow = picks.pick(3) + 1;
    let npcol = picks.pick(3) + 1;
    Side {
        mb: picks.pick(6) + 1,
        nb: picks.pick(6) + 1,
        rsrc: picks.pick(nprow),
        csrc: picks.pick(npcol),
        nprow,
        npcol,
    }
}

fn drawn_sub(picks: &mut SeedPicks) -> Sub {
    Sub {
        cut: Cut {
            shape: drawn_shape(picks),
            m: picks.pick(24),
            n: picks.pick(24),
        },
        ia: picks.pick(9),
        ja: picks.pick(9),
        ib: picks.pick(9),
        jb: picks.pick(9),
    }
}

// Whether the move is within the limits and its meets are the walked ones.
fn is_as_walked(alloc: Global, sub: &Sub, a: &Side, b: &Side) -> Result<bool, AllocError> {
    let fit = fits(sub.cut.m, &a.rows(sub.ia))
        && fits(sub.cut.m, &b.rows(sub.ib))
        && fits(sub.cut.n, &a.columns(sub.ja))
        && fits(sub.cut.n, &b.columns(sub.jb));
    if fit {
        same_meets(alloc, sub, a, b)
    } else {
        Ok(false)
    }
}

#[test]
fn drawn_moves_as_they_are_walked(rt: HostRuntime) -> Result<(), Fail> {
    let mut picks = SeedPicks::new(2);
    for _ in 0..400 {
        let sub = drawn_sub(&mut picks);
        let a = drawn_side(&mut picks);
        let b = drawn_side(&mut picks);
        assert!(rt; is_as_walked(rt.alloc(), &sub, &a, &b)?);
    }
    Ok(())
}
