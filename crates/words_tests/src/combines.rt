//! Each operation of the accumulator once, in combines of two ranks.

use crate::trial::{array_of, run, staged, words_of};
use msg_core::Stage;
use pack_words::{Coords, FoldKind, LocalArray, RankMem, RankOp, Region};
use proc_grid::Scope;
use std::alloc::Global;
use std::test::Fail;

const BOTH: Region = Region {
    li: 0,
    lj: 0,
    rows: 2,
    cols: 1,
    i0: 0,
    j0: 0,
};

fn load(place: u32) -> RankOp {
    RankOp::LoadAcc {
        array: 0,
        region: BOTH,
        place,
    }
}

fn store(coords: Option<Coords>) -> RankOp {
    RankOp::StoreAcc {
        array: 0,
        region: BOTH,
        coords,
    }
}

fn put(to: u32, pairs: bool) -> RankOp {
    RankOp::PutAcc { to, len: 2, pairs }
}

fn join(from: u32, fold: FoldKind) -> RankOp {
    RankOp::JoinAcc { from, len: 2, fold }
}

// Three arrays of two words: these, and zeros for rows and for columns.
fn three(alloc: Global, words: &[i32]) -> Option<Vec<LocalArray>> {
    let values = array_of(alloc, 2, words)?;
    let rows = array_of(alloc, 2, &[0, 0])?;
    let columns = array_of(alloc, 2, &[0, 0])?;
    Vec::from_array(alloc, [values, rows, columns]).ok()
}

// IGAMX2D over both ranks of a 1 by 2 grid, with a signal after it.
fn greatest_for_all(alloc: Global, first: &[i32], second: &[i32]) -> Option<Stage<RankMem>> {
    let coords = Some(Coords {
        ra: 1,
        ca: 2,
        scope: Scope::All,
        npcol: 2,
    });
    let get = RankOp::GetAcc {
        from: 0,
        len: 2,
        pairs: true,
    };
    let signal = RankOp::Pulse {
        peer: 1,
        sends: true,
    };
    let wait = RankOp::Pulse {
        peer: 0,
        sends: false,
    };
    let ops = [
        (0, load(0)),
        (1, load(1)),
        (1, put(0, true)),
        (0, join(1, FoldKind::AbsMax)),
        (0, put(1, true)),
        (1, get),
        (0, store(coords)),
        (1, store(coords)),
        (0, signal),
        (1, wait),
    ];
    let (first, second) = (three(alloc, first)?, three(alloc, second)?);
    staged(alloc, first, second, Vec::from_array(alloc, ops).ok()?)
}

// IGSUM2D with rank 0 as the destination.
fn sum_for_one(alloc: Global, first: &[i32], second: &[i32]) -> Option<Stage<RankMem>> {
    let ops = [
        (0, load(0)),
        (1, load(1)),
        (1, put(0, false)),
        (0, join(1, FoldKind::Sum)),
        (0, store(None)),
    ];
    let (first, second) = (three(alloc, first)?, three(alloc, second)?);
    staged(alloc, first, second, Vec::from_array(alloc, ops).ok()?)
}

#[test]
fn greatest_with_coordinates(rt: HostRuntime) -> Result<(), Fail> {
    let alloc = rt.alloc();
    for seed in [None, Some(1), Some(2)] {
        let stage = greatest_for_all(alloc, &[-5, 3], &[5, -7]).ok_or("a stage")?;
        let after = run(stage, seed);
        let wants = [(0, [-5, -7]), (1, [0, 0]), (2, [0, 1])];
        for rank in 0..2 {
            for (array, want) in wants {
                let words = words_of(alloc, &after, rank, array).ok_or("words")?;
                assert_eq!(rt;
                    words.as_slice(),
                    want.as_slice(),
                    "rank {rank}, array {array}"
                );
            }
        }
    }
    Ok(())
}

#[test]
fn sum_modulo(rt: HostRuntime) -> Result<(), Fail> {
    let alloc = rt.alloc();
    for seed in [None, Some(1)] {
        let stage = sum_for_one(alloc, &[2_147_483_647, 5], &[1, -8]).ok_or("a stage")?;
        let after = run(stage, seed);
        let wants = [
            (0, 0, [-2_147_483_648, -3]),
            (1, 0, [1, -8]),
            (0, 1, [0, 0]),
        ];
        for (rank, array, want) in wants {
            let words = words_of(alloc, &after, rank, array).ok_or("words")?;
            assert_eq!(rt;
                words.as_slice(),
                want.as_slice(),
                "rank {rank}, array {array}"
            );
        }
    }
    Ok(())
}
