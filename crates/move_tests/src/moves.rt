//! Moves: their numbers, the words that they leave, and their refusals.

use crate::matrix::Matrix;
use crate::memories::Fill;
use crate::trial::{Case, begin, run};
use crate::words::{arrived, changed, has_words};
use descriptor::{Info, Llds, Moved, MrArgs, MrErr, Spread};
use msg_core::{Picks, SeedPicks};
use proc_grid::{Contexts, GridErr, Order, World, gridinit, gridmap};
use std::alloc::{AllocError, Global};
use std::test::Fail;

// Grids over 16 ranks: 4 by 4, 2 by 8, a column of the first two ranks, one process of rank 0, one of rank 1, and two
// that have ranks in common, 3 by 2 and 2 by 3.
fn grids(alloc: Global) -> Result<Contexts, GridErr> {
    let Some(world) = World::new(16) else {
        return Err(GridErr::NoMemory);
    };
    let mut contexts = Contexts::new(alloc)?;
    contexts.add(gridinit(alloc, &world, Order::R, 4, 4)?)?;
    contexts.add(gridinit(alloc, &world, Order::R, 2, 8)?)?;
    contexts.add(gridinit(alloc, &world, Order::R, 2, 1)?)?;
    contexts.add(gridmap(alloc, &world, &[0], 1, 1, 1)?)?;
    contexts.add(gridmap(alloc, &world, &[1], 1, 1, 1)?)?;
    contexts.add(gridmap(alloc, &world, &[9, 3, 5, 1, 0, 7], 3, 3, 2)?)?;
    contexts.add(gridmap(alloc, &world, &[4, 9, 1, 6, 0, 15], 2, 2, 3)?)?;
    Ok(contexts)
}

// A matrix in blocks from the process (0, 0) on, in arrays without padding.
fn plain(ctxt: u32, sizes: (u32, u32), blocks: (u32, u32)) -> Matrix {
    Matrix {
        ctxt,
        sizes,
        blocks,
        source: (0, 0),
        more: 0,
    }
}

// The whole of a matrix to another.
fn whole(a: Matrix, b: Matrix) -> Case {
    Case {
        letters: None,
        sizes: a.sizes,
        a,
        from: (0, 0),
        b,
        to: (0, 0),
    }
}

// Words that tell the array, the rank and the place.
fn marks(array: i32) -> Fill {
    Fill {
        first: array.wrapping_mul(1 << 26),
        rank: 1 << 20,
        row: 1,
        column: 1 << 10,
    }
}

// Four rows over two processes, from single rows to pairs of rows.
fn strips(sizes: (u32, u32)) -> Case {
    Case {
        sizes,
        ..whole(plain(2, (4, 1), (1, 1)), plain(2, (4, 1), (2, 1)))
    }
}

// A part of a matrix over all ranks to another, from odd starts on, with sources and padding.
fn odd() -> Case {
    Case {
        letters: None,
        sizes: (17, 11),
        a: Matrix {
            ctxt: 0,
            sizes: (23, 19),
            blocks: (3, 2),
            source: (1, 3),
            more: 2,
        },
        from: (5, 7),
        b: Matrix {
            ctxt: 1,
            sizes: (30, 20),
            blocks: (4, 3),
            source: (1, 5),
            more: 1,
        },
        to: (3, 2),
    }
}

// Between grids that have some ranks in common.
fn overlapping() -> Case {
    Case {
        letters: None,
        sizes: (9, 8),
        a: Matrix {
            ctxt: 5,
            sizes: (12, 9),
            blocks: (2, 3),
            source: (2, 1),
            more: 1,
        },
        from: (3, 1),
        b: Matrix {
            ctxt: 6,
            sizes: (10, 13),
            blocks: (3, 2),
            source: (0, 2),
            more: 4,
        },
        to: (1, 5),
    }
}

// The part below the diagonal of 13 by 9 elements.
fn below() -> Case {
    Case {
        letters: Some(('L', 'U')),
        sizes: (13, 9),
        a: Matrix {
            ctxt: 5,
            sizes: (15, 12),
            blocks: (2, 2),
            source: (1, 0),
            more: 1,
        },
        from: (1, 2),
        b: Matrix {
            ctxt: 0,
            sizes: (16, 16),
            blocks: (3, 1),
            source: (2, 2),
            more: 0,
        },
        to: (2, 7),
    }
}

// The numbers of each move, and its words after a run in order and after two by schedule: each selected element has
// arrived, and every other word of both arrays stays.
#[test]
fn moves_and_their_words(rt: HostRuntime) -> Result<(), Fail> {
    let one = plain(3, (3, 2), (3, 2));
    let other = Matrix {
        more: 3,
        ..plain(4, (3, 2), (3, 2))
    };
    let small = plain(3, (1, 1), (1, 1));
    let wide = plain(3, (2, 3), (2, 3));
    let rows: [(Case, (u64, u32, u32), u32); 12] = [
        (strips((4, 1)), (4, 2, 2), 4),
        (strips((0, 0)), (0, 0, 0), 0),
        (strips((1, 1)), (1, 0, 1), 1),
        (whole(one, other), (1, 1, 0), 6),
        (whole(one, one), (1, 0, 1), 6),
        (
            Case {
                letters: Some(('U', 'N')),
                ..whole(one, one)
            },
            (1, 0, 1),
            5,
        ),
        (
            Case {
                letters: Some(('L', 'N')),
                ..whole(wide, wide)
            },
            (1, 0, 1),
            5,
        ),
        // only its diagonal, which is left out
        (
            Case {
                letters: Some(('U', 'U')),
                ..whole(small, small)
            },
            (0, 0, 0),
            0,
        ),
        (odd(), (72, 64, 0), 187),
        (overlapping(), (42, 14, 2), 72),
        (below(), (50, 27, 2), 72),
        (
            whole(
                plain(0, (1000, 1000), (64, 64)),
                plain(1, (1000, 1000), (32, 32)),
            ),
            (1024, 60, 4),
            1_000_000,
        ),
    ];
    for (case, numbers, elements) in rows {
        for seed in [None, Some(1), Some(2)] {
            let mut trial = begin(rt.alloc(), 16, grids(rt.alloc())?, &[case.a, case.b])?;
            let (meets, messages, copies) = numbers;
            let want = Moved {
                meets,
                messages,
                copies,
            };
            assert_eq!(rt; trial.add(rt.alloc(), &case, 0, 1)?, Ok(want));
            let (contexts, stage) = trial.staged(rt.alloc(), &[marks(1), marks(2)])?;
            let nodes = run(stage, seed);
            let found = arrived(rt.alloc(), &contexts, &case, &marks(1), &nodes, 1)?;
            assert_eq!(rt; found, (elements, elements));
            assert_eq!(rt; changed(&nodes, 0, &marks(1)), 0);
            assert_eq!(rt; changed(&nodes, 1, &marks(2)), elements);
        }
    }
    Ok(())
}

// Whole arrays after a move, by columns.
#[test]
fn arrays_after_moves(rt: HostRuntime) -> Result<(), Fail> {
    let one = plain(3, (3, 2), (3, 2));
    let tall = Matrix {
        more: 3,
        ..plain(4, (2, 2), (2, 2))
    };
    let all = |first, rank, row, column| Fill {
        first,
        rank,
        row,
        column,
    };
    let rows: [(Case, Fill, Fill, u32, &[i32]); 5] = [
        (
            strips((4, 1)),
            all(10, 10, 20, 0),
            all(0, 0, 0, 0),
            0,
            &[10, 20],
        ),
        (
            strips((4, 1)),
            all(10, 10, 20, 0),
            all(0, 0, 0, 0),
            1,
            &[30, 40],
        ),
        // on another rank, with three rows of padding
        (
            whole(plain(3, (2, 2), (2, 2)), tall),
            all(1, 0, 1, 10),
            all(7, 0, 0, 0),
            1,
            &[1, 2, 7, 7, 7, 11, 12, 7, 7, 7],
        ),
        (
            Case {
                letters: Some(('U', 'N')),
                ..whole(one, one)
            },
            all(1, 0, 1, 10),
            all(0, 0, 0, 0),
            0,
            &[1, 2, 0, 11, 12, 13],
        ),
        (
            Case {
                letters: Some(('U', 'U')),
                ..whole(one, one)
            },
            all(1, 0, 1, 10),
            all(0, 0, 0, 0),
            0,
            &[1, 0, 0, 11, 12, 0],
        ),
    ];
    for (case, fill_a, fill_b, rank, words) in rows {
        let mut trial = begin(rt.alloc(), 16, grids(rt.alloc())?, &[case.a, case.b])?;
        assert!(rt; trial.add(rt.alloc(), &case, 0, 1)?.is_ok());
        let (_contexts, stage) = trial.staged(rt.alloc(), &[fill_a, fill_b])?;
        let nodes = run(stage, Some(1));
        assert!(rt; has_words(&nodes, rank, 1, words));
    }
    Ok(())
}

// A matrix goes to another grid and back, in one plan: what comes back is the first.
#[test]
fn there_and_back(rt: HostRuntime) -> Result<(), Fail> {
    let a = Matrix {
        source: (3, 1),
        more: 1,
        ..plain(0, (37, 29), (3, 4))
    };
    let b = Matrix {
        source: (1, 6),
        ..plain(1, (37, 29), (5, 2))
    };
    for seed in [None, Some(3)] {
        let mut trial = begin(rt.alloc(), 16, grids(rt.alloc())?, &[a, b, a])?;
        assert!(rt; trial.add(rt.alloc(), &whole(a, b), 0, 1)?.is_ok());
        assert!(rt; trial.add(rt.alloc(), &whole(b, a), 1, 2)?.is_ok());
        let (contexts, stage) = trial.staged(rt.alloc(), &[marks(1), marks(2), marks(3)])?;
        let nodes = run(stage, seed);
        let found = arrived(rt.alloc(), &contexts, &whole(a, a), &marks(1), &nodes, 2)?;
        assert_eq!(rt; found, (1073, 1073));
        assert_eq!(rt; changed(&nodes, 2, &marks(3)), 1073);
        assert_eq!(rt; changed(&nodes, 0, &marks(1)), 0);
    }
    Ok(())
}

// A matrix of at most `most` rows and columns over one of the first seven grids.
fn drawn_matrix(picks: &mut SeedPicks, contexts: &Contexts, most: u32) -> Option<Matrix> {
    let ctxt = picks.pick(7);
    let grid = contexts.get(i64::from(ctxt))?;
    let (nprow, npcol) = (grid.nprow(), grid.npcol());
    if nprow == 0 || npcol == 0 || most == 0 {
        return None;
    }
    Some(Matrix {
        ctxt,
        sizes: (
            picks.pick(most).wrapping_add(1),
            picks.pick(most).wrapping_add(1),
        ),
        blocks: (picks.pick(5).wrapping_add(1), picks.pick(5).wrapping_add(1)),
        source: (picks.pick(nprow), picks.pick(npcol)),
        more: picks.pick(3),
    })
}

// A number below a bound, or 0.
fn below_or_none(picks: &mut SeedPicks, bound: u32) -> u32 {
    if bound == 0 { 0 } else { picks.pick(bound) }
}

// A part of one drawn matrix to a part of another.
fn drawn_case(picks: &mut SeedPicks, contexts: &Contexts) -> Option<Case> {
    let a = drawn_matrix(picks, contexts, 20)?;
    let b = drawn_matrix(picks, contexts, 20)?;
    let letters = [
        None,
        Some(('U', 'N')),
        Some(('U', 'U')),
        Some(('L', 'N')),
        Some(('L', 'U')),
    ];
    let m = below_or_none(picks, a.sizes.0.min(b.sizes.0).wrapping_add(1));
    let n = below_or_none(picks, a.sizes.1.min(b.sizes.1).wrapping_add(1));
    Some(Case {
        letters: letters[picks.pick(5) as usize],
        sizes: (m, n),
        from: (
            below_or_none(picks, a.sizes.0.wrapping_sub(m).wrapping_add(1)),
            below_or_none(picks, a.sizes.1.wrapping_sub(n).wrapping_add(1)),
        ),
        to: (
            below_or_none(picks, b.sizes.0.wrapping_sub(m).wrapping_add(1)),
            below_or_none(picks, b.sizes.1.wrapping_sub(n).wrapping_add(1)),
        ),
        a,
        b,
    })
}

#[test]
fn drawn_moves(rt: HostRuntime) -> Result<(), Fail> {
    let mut picks = SeedPicks::new(19);
    for turn in 0..100u64 {
        let contexts = grids(rt.alloc())?;
        let case = drawn_case(&mut picks, &contexts).ok_or("a case")?;
        let mut trial = begin(rt.alloc(), 16, contexts, &[case.a, case.b])?;
        assert!(rt; trial.add(rt.alloc(), &case, 0, 1)?.is_ok());
        let (contexts, stage) = trial.staged(rt.alloc(), &[marks(1), marks(2)])?;
        let nodes = run(stage, if turn % 2 == 0 { None } else { Some(turn) });
        let (there, all) = arrived(rt.alloc(), &contexts, &case, &marks(1), &nodes, 1)?;
        assert_eq!(rt; there, all);
        assert_eq!(rt; changed(&nodes, 0, &marks(1)), 0);
        assert_eq!(rt; changed(&nodes, 1, &marks(2)), all);
    }
    Ok(())
}

// Makes an entry of a descriptor bad.
fn spoil_entry(alloc: Global, spread: &mut Spread, entry: i32) {
    match entry {
        1 => spread.desc.dtype = 2,
        2 => spread.desc.ctxt = 99,
        3 => spread.desc.m = -1,
        4 => spread.desc.n = (1 << 24) + 1,
        5 => spread.desc.mb = 0,
        6 => spread.desc.nb = 0,
        7 => spread.desc.rsrc = -1,
        8 => spread.desc.csrc = 64,
        _ => spread.llds = Llds::new(Vec::new(alloc)),
    }
}

// Makes an argument of a whole move bad, or an entry of a descriptor, which is a hundred times its argument and the entry.
fn spoil(alloc: Global, args: &mut MrArgs, place: i32) {
    match place {
        1 => args.m = -1,
        2 => args.n = (1 << 24) + 1,
        4 => args.ia = 0,
        5 => args.ja = 2,
        8 => args.ib = 2,
        9 => args.jb = 0,
        // a grid without rank 1
        11 => args.ictxt = 3,
        601..=609 => spoil_entry(alloc, &mut args.desca, place.wrapping_sub(600)),
        _ => spoil_entry(alloc, &mut args.descb, place.wrapping_sub(1000)),
    }
}

// Each bad argument of both calls, by its place: nothing is planned.
#[test]
fn refused_arguments(rt: HostRuntime) -> Result<(), Fail> {
    let case = strips((4, 1));
    let rows: [(i32, i32); 25] = [
        (1, 3),
        (2, 4),
        (4, 6),
        (5, 7),
        (8, 10),
        (9, 11),
        (11, 13),
        (601, 801),
        (602, 802),
        (603, 803),
        (604, 804),
        (605, 805),
        (606, 806),
        (607, 807),
        (608, 808),
        (609, 809),
        (1001, 1201),
        (1002, 1202),
        (1003, 1203),
        (1004, 1204),
        (1005, 1205),
        (1006, 1206),
        (1007, 1207),
        (1008, 1208),
        (1009, 1209),
    ];
    for (place, later) in rows {
        let mut trial = begin(rt.alloc(), 16, grids(rt.alloc())?, &[case.a, case.b])?;
        let mut args = case.args(rt.alloc(), &trial.contexts, 0, 1)?;
        spoil(rt.alloc(), &mut args, place);
        let found = trial.add_by(rt.alloc(), None, &args)?;
        assert_eq!(rt; found, Err(MrErr::Info(Info(place.wrapping_neg()))));
        let found = trial.add_by(rt.alloc(), Some(('U', 'N')), &args)?;
        assert_eq!(rt; found, Err(MrErr::Info(Info(later.wrapping_neg()))));
        assert_eq!(rt; trial.ops(), 0);
    }
    for (letters, place) in [(('X', 'N'), -1), (('l', 'x'), -2)] {
        let mut trial = begin(rt.alloc(), 16, grids(rt.alloc())?, &[case.a, case.b])?;
        let args = case.args(rt.alloc(), &trial.contexts, 0, 1)?;
        let found = trial.add_by(rt.alloc(), Some(letters), &args)?;
        assert_eq!(rt; found, Err(MrErr::Info(Info(place))));
        assert_eq!(rt; trial.ops(), 0);
    }
    Ok(())
}

// An array is not moved to itself; a bad argument is told first.
#[test]
fn one_array_as_both(rt: HostRuntime) -> Result<(), Fail> {
    let case = strips((4, 1));
    let both = whole(case.a, case.a);
    let mut trial = begin(rt.alloc(), 16, grids(rt.alloc())?, &[case.a])?;
    let found = trial.add(rt.alloc(), &both, 0, 0)?;
    assert_eq!(rt; found, Err(MrErr::SameArray));
    let mut args = both.args(rt.alloc(), &trial.contexts, 0, 0)?;
    args.ib = 2;
    let found = trial.add_by(rt.alloc(), None, &args)?;
    assert_eq!(rt; found, Err(MrErr::Info(Info(-8))));
    assert_eq!(rt; trial.ops(), 0);
    Ok(())
}

// Moves from a column of 64 ranks to a row of them have an operation for each pair, and a receive for each pair of two:
// 129 of them are 64 operations short of a full plan.
#[test]
fn full_plans(rt: HostRuntime) -> Result<(), Fail> {
    let world = World::new(64).ok_or("a world")?;
    let mut contexts = Contexts::new(rt.alloc())?;
    contexts.add(gridinit(rt.alloc(), &world, Order::R, 64, 1)?)?;
    contexts.add(gridinit(rt.alloc(), &world, Order::R, 1, 64)?)?;
    let column = plain(0, (64, 64), (1, 1));
    let turn = whole(column, plain(1, (64, 64), (1, 1)));
    let stay = whole(column, column);
    let element = Case {
        sizes: (1, 1),
        ..stay
    };
    let none = Case {
        sizes: (0, 0),
        ..stay
    };
    let mut trial = begin(rt.alloc(), 64, contexts, &[column, turn.b, column])?;
    assert!(rt; trial.add_often(rt.alloc(), &turn, 0, 1, 129)?);
    assert_eq!(rt; trial.add(rt.alloc(), &turn, 0, 1)?, Err(MrErr::TooManyOps));
    assert_eq!(rt; trial.ops(), 1_048_512);
    // 64 copies fill the plan
    assert!(rt; trial.add(rt.alloc(), &stay, 0, 2)?.is_ok());
    assert_eq!(rt; trial.ops(), 1_048_576);
    assert_eq!(rt;
        trial.add(rt.alloc(), &element, 0, 2)?,
        Err(MrErr::TooManyOps)
    );
    // a move of no elements has no operation
    assert!(rt; trial.add(rt.alloc(), &none, 0, 2)?.is_ok());
    assert_eq!(rt; trial.ops(), 1_048_576);
    Ok(())
}
