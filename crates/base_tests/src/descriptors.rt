//! Descriptors and the arguments of moves at worked values, with each refusal.

use descriptor::{
    Desc, Info, Llds, MrArgs, Seat, Spread, chk1mat, descinit, descinit_at, info_gemr2d,
    info_trmr2d,
};
use proc_grid::{Contexts, GridErr, Order, World, gridinit, gridmap};
use std::alloc::{AllocError, Global};
use std::test::Fail;

// A 2 by 2 grid is context 0.
fn one_context(alloc: Global, world: &World) -> Result<Contexts, GridErr> {
    let mut contexts = Contexts::new(alloc)?;
    contexts.add(gridinit(alloc, world, Order::R, 2, 2)?)?;
    Ok(contexts)
}

// M, N, MB, NB, IRSRC, ICSRC, ICTXT, LLD and the rank, with the answer.
type Row = ([i64; 8], u32, Option<i32>);

const LARGE: i64 = 1 << 24;

#[test]
fn new_descriptors(rt: HostRuntime) -> Result<(), Fail> {
    let world = World::new(5).ok_or("a world")?;
    let contexts = one_context(rt.alloc(), &world)?;
    let rows: [Row; 23] = [
        // an empty matrix is looked at like any other
        ([0, 4, 0, 2, 0, 0, 0, 1], 0, Some(-4)),
        ([4, 0, 2, 0, 0, 0, 0, 2], 0, Some(-5)),
        ([0, 0, 2, 2, 2, 0, 0, 1], 0, Some(-6)),
        ([0, 0, 2, 2, 0, 2, 0, 1], 0, Some(-7)),
        ([0, 0, 2, 2, 0, 0, 0, 0], 0, Some(-9)),
        ([4, 4, 2, 2, 0, 0, 0, 2], 0, None),
        ([4, 4, 0, 2, 0, 0, 0, 2], 0, Some(-4)),
        ([4, 4, 2, 2, 2, 0, 0, 2], 0, Some(-6)),
        ([4, 4, 2, 2, 0, 0, 0, 1], 0, Some(-9)),
        ([-1, 4, 0, 2, 0, 0, 0, 2], 0, Some(-2)),
        ([4, 4, 2, 2, 0, 0, 0, 2], 4, Some(-8)),
        ([4, 4, 2, 2, 9, 0, 1, 2], 0, Some(-8)),
        ([4, 4, 2, 2, 0, 0, -1, 2], 0, Some(-8)),
        ([LARGE + 1, 4, 2, 2, 0, 0, 0, 2], 0, Some(-2)),
        ([4, LARGE + 1, 2, 2, 0, 0, 0, 2], 0, Some(-3)),
        ([4, 4, 2, 0, 0, 0, 0, 2], 0, Some(-5)),
        ([4, 4, 2, 2, 0, -1, 0, 2], 0, Some(-7)),
        ([4, 4, 2, 2, 0, 0, 0, LARGE + 1], 0, Some(-9)),
        ([4, 4, 2, 2, 0, 0, 0, LARGE], 0, None),
        // process row 1 has no row here, and the least leading dimension is 1
        ([2, 4, 2, 2, 0, 0, 0, 1], 2, None),
        ([2, 4, 2, 2, 0, 0, 0, 0], 2, Some(-9)),
        ([0, 0, LARGE, LARGE, 1, 1, 0, 1], 3, None),
        (
            [i64::MIN, i64::MAX, 0, 0, 0, 0, i64::MAX, i64::MIN],
            0,
            Some(-2),
        ),
    ];
    for ([m, n, mb, nb, irsrc, icsrc, ictxt, lld], rank, want) in rows {
        let answer = descinit(&contexts, m, n, mb, nb, irsrc, icsrc, ictxt, lld, rank).err();
        assert_eq!(rt;
            answer,
            want.map(Info),
            "at {m} {n} {mb} {nb} {irsrc} {icsrc} {ictxt} {lld} of {rank}"
        );
        // the same without the context, whose rank r has process row r / 2
        if ictxt == 0 && rank < 4 {
            let seat = Seat {
                nprow: 2,
                npcol: 2,
                row: rank / 2,
            };
            assert_eq!(rt;
                descinit_at(seat, m, n, mb, nb, irsrc, icsrc, lld).err(),
                want.map(Info),
                "at {m} {n} {mb} {nb} {irsrc} {icsrc} {lld} at the seat of {rank}"
            );
        }
    }
    Ok(())
}

fn spread(alloc: Global, desc: Desc, llds: &[i64]) -> Result<Spread, AllocError> {
    Ok(Spread {
        desc,
        llds: Llds::new(Vec::from_slice(alloc, llds)?),
    })
}

// A 4 by 5 matrix in blocks of 2 by 2 on context `ctxt`.
fn four_by_five(ctxt: i64) -> Desc {
    Desc {
        dtype: 1,
        ctxt,
        m: 4,
        n: 5,
        mb: 2,
        nb: 2,
        rsrc: 0,
        csrc: 0,
        lld: 2,
    }
}

// The entries of a descriptor by their numbers, with another value each.
fn with_entry(mut desc: Desc, entry: u32, value: i64) -> Desc {
    match entry {
        1 => desc.dtype = value,
        2 => desc.ctxt = value,
        3 => desc.m = value,
        4 => desc.n = value,
        5 => desc.mb = value,
        6 => desc.nb = value,
        7 => desc.rsrc = value,
        8 => desc.csrc = value,
        _ => desc.lld = value,
    }
    desc
}

#[test]
fn entries_of_a_descriptor(rt: HostRuntime) -> Result<(), Fail> {
    let world = World::new(4).ok_or("a world")?;
    let contexts = one_context(rt.alloc(), &world)?;
    let good = four_by_five(0);
    let rows = [
        (1, 1, None),
        (1, 2, Some(-601)),
        (2, 1, Some(-602)),
        (3, -1, Some(-603)),
        (4, LARGE + 1, Some(-604)),
        (5, 0, Some(-605)),
        (6, LARGE + 1, Some(-606)),
        (7, 2, Some(-607)),
        (8, -1, Some(-608)),
        // the descriptor's own leading dimension isn't looked at
        (9, 0, None),
    ];
    for (entry, value, want) in rows {
        let matrix = spread(rt.alloc(), with_entry(good, entry, value), &[2, 2, 2, 2])?;
        assert_eq!(rt;
            chk1mat(&contexts, 2, 1, 2, 2, 1, 1, &matrix, 6).err(),
            want.map(Info),
            "at {entry} {value}"
        );
    }
    Ok(())
}

#[test]
fn leading_dimensions_of_all_processes(rt: HostRuntime) -> Result<(), Fail> {
    let world = World::new(4).ok_or("a world")?;
    let contexts = one_context(rt.alloc(), &world)?;
    let rows: [(&[i64], Option<i32>); 6] = [
        (&[2, 3, LARGE, 2], None),
        (&[1, 2, 2, 2], Some(-609)),
        (&[2, 2, 2, 1], Some(-609)),
        (&[2, 2, LARGE + 1, 2], Some(-609)),
        (&[2, 2, 2], Some(-609)),
        (&[2, 2, 2, 2, 2], Some(-609)),
    ];
    for (llds, want) in rows {
        let matrix = spread(rt.alloc(), four_by_five(0), llds)?;
        assert_eq!(rt;
            chk1mat(&contexts, 2, 1, 2, 2, 1, 1, &matrix, 6).err(),
            want.map(Info),
            "at {llds:?}"
        );
    }
    Ok(())
}

#[test]
fn submatrices_inside_their_matrix(rt: HostRuntime) -> Result<(), Fail> {
    let world = World::new(4).ok_or("a world")?;
    let contexts = one_context(rt.alloc(), &world)?;
    let matrix = spread(rt.alloc(), four_by_five(0), &[2, 2, 2, 2])?;
    let rows = [
        (4, 5, 1, 1, None),
        (2, 2, 3, 4, None),
        (0, 0, 5, 6, None),
        (0, 0, 6, 1, Some(-4)),
        (2, 2, 4, 4, Some(-4)),
        (2, 2, 3, 5, Some(-5)),
        (2, 2, 0, 0, Some(-4)),
        (2, 2, 1, 0, Some(-5)),
        (5, 1, 1, 1, Some(-4)),
        (-1, 2, 0, 1, Some(-1)),
        (2, LARGE + 1, 0, 1, Some(-2)),
        (2, 2, i64::MAX, i64::MIN, Some(-4)),
    ];
    for (m, n, ia, ja, want) in rows {
        assert_eq!(rt;
            chk1mat(&contexts, m, 1, n, 2, ia, ja, &matrix, 6).err(),
            want.map(Info),
            "at {m} {n} {ia} {ja}"
        );
    }
    Ok(())
}

// Rank 0 is context 0, rank 1 context 1, and both are context 2. A 2 by 2 matrix lies on the first and one on the
// second.
fn disjoint(alloc: Global, world: &World) -> Result<(Contexts, MrArgs), GridErr> {
    let mut contexts = Contexts::new(alloc)?;
    contexts.add(gridmap(alloc, world, &[0], 1, 1, 1)?)?;
    contexts.add(gridmap(alloc, world, &[1], 1, 1, 1)?)?;
    contexts.add(gridinit(alloc, world, Order::R, 1, 2)?)?;
    let desc = Desc {
        dtype: 1,
        ctxt: 0,
        m: 2,
        n: 2,
        mb: 2,
        nb: 2,
        rsrc: 0,
        csrc: 0,
        lld: 2,
    };
    let args = MrArgs {
        m: 2,
        n: 2,
        a: 0,
        ia: 1,
        ja: 1,
        desca: spread(alloc, desc, &[2])?,
        b: 1,
        ib: 1,
        jb: 1,
        descb: spread(alloc, with_entry(desc, 2, 1), &[5])?,
        ictxt: 2,
    };
    Ok((contexts, args))
}

#[test]
fn arguments_of_moves(rt: HostRuntime) -> Result<(), Fail> {
    let world = World::new(2).ok_or("a world")?;
    let (contexts, mut args) = disjoint(rt.alloc(), &world)?;
    assert_eq!(rt; info_gemr2d(&contexts, &args), Ok(()));
    for letters in [('U', 'N'), ('u', 'U'), ('L', 'u'), ('l', 'n')] {
        assert_eq!(rt;
            info_trmr2d(&contexts, letters.0, letters.1, &args),
            Ok(()),
            "at {letters:?}"
        );
    }
    assert_eq!(rt; info_trmr2d(&contexts, 'X', 'X', &args), Err(Info(-1)));
    assert_eq!(rt; info_trmr2d(&contexts, 'U', 'X', &args), Err(Info(-2)));
    // one bad entry of B's descriptor, and all else good
    args.descb.desc.nb = 0;
    assert_eq!(rt; info_gemr2d(&contexts, &args), Err(Info(-1006)));
    args.descb.desc.nb = 2;
    assert_eq!(rt; info_gemr2d(&contexts, &args), Ok(()));
    // the context of A's grid lacks rank 1, that of B's grid lacks rank 0, and there is no context 3
    for ictxt in [0, 1, 3, -1] {
        args.ictxt = ictxt;
        assert_eq!(rt; info_gemr2d(&contexts, &args), Err(Info(-11)), "at {ictxt}");
        assert_eq!(rt;
            info_trmr2d(&contexts, 'U', 'N', &args),
            Err(Info(-13)),
            "at {ictxt}"
        );
    }
    // each one stands before those that are bad already
    args.jb = 2;
    assert_eq!(rt; info_gemr2d(&contexts, &args), Err(Info(-9)));
    args.ib = 0;
    assert_eq!(rt; info_gemr2d(&contexts, &args), Err(Info(-8)));
    args.descb.desc.nb = 0;
    assert_eq!(rt; info_gemr2d(&contexts, &args), Err(Info(-1006)));
    args.ja = 2;
    assert_eq!(rt; info_gemr2d(&contexts, &args), Err(Info(-5)));
    args.ia = 2;
    assert_eq!(rt; info_trmr2d(&contexts, 'U', 'N', &args), Err(Info(-6)));
    args.desca.desc.dtype = 2;
    assert_eq!(rt; info_trmr2d(&contexts, 'U', 'N', &args), Err(Info(-801)));
    args.n = -1;
    assert_eq!(rt; info_gemr2d(&contexts, &args), Err(Info(-2)));
    args.m = LARGE + 1;
    assert_eq!(rt; info_gemr2d(&contexts, &args), Err(Info(-1)));
    Ok(())
}
