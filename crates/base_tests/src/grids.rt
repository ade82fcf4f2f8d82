//! Process grids at worked values, with each refusal.
ghost use Rattle.std.specs.Prelude.{◌≡◌, ◌<◌, ◌+◌, length, IfOk};

use proc_grid::{
    Contexts, GridErr, GridInfo, Order, Scope, World, gridinit, gridmap, scope_members,
};
use std::alloc::Global;
use std::test::Fail;

#[test]
fn worlds_have_one_to_sixty_four_ranks(rt: HostRuntime) {
    for (ranks, is_world) in [(0, false), (1, true), (64, true), (65, false)] {
        assert_eq!(rt; World::new(ranks).is_some(), is_world, "at {ranks}");
    }
}

#[test]
fn orders_by_their_letters(rt: HostRuntime) {
    for (letter, order) in [
        ('R', Some(Order::R)),
        ('r', Some(Order::R)),
        ('C', Some(Order::C)),
        ('c', Some(Order::C)),
        ('S', None),
        ('1', None),
    ] {
        assert_eq!(rt; Order::read(letter), order, "at {letter}");
    }
}

#[test]
fn ranks_dealt_out_by_rows_and_columns(rt: HostRuntime) -> Result<(), Fail> {
    let world = World::new(6).ok_or("a world")?;
    let by_rows = gridinit(rt.alloc(), &world, Order::R, 2, 3)?;
    let by_columns = gridinit(rt.alloc(), &world, Order::C, 2, 3)?;
    assert_eq!(rt; by_rows.pcoord(4), (1, 1));
    assert_eq!(rt; by_columns.pcoord(4), (0, 2));
    assert_eq!(rt; by_rows.ranks(), [0, 1, 2, 3, 4, 5].as_slice());
    assert_eq!(rt; by_columns.ranks(), [0, 2, 4, 1, 3, 5].as_slice());
    assert_eq!(rt; (by_rows.nprow(), by_rows.npcol()), (2, 3));
    for (prow, pcol, rank) in [
        (0, 0, 0),
        (1, 0, 3),
        (1, 2, 5),
        (2, 0, -1),
        (0, 3, -1),
        (-1, 0, -1),
        (0, -1, -1),
    ] {
        assert_eq!(rt; by_rows.pnum(prow, pcol), rank, "at {prow}, {pcol}");
    }
    for rank in [-1, 6, i32::MAX, i32::MIN] {
        assert_eq!(rt; by_rows.pcoord(rank), (-1, -1), "at {rank}");
    }
    let inside = GridInfo {
        nprow: 2,
        npcol: 3,
        myrow: 0,
        mycol: 2,
    };
    assert_eq!(rt; by_columns.gridinfo(4), inside);
    let outside = GridInfo {
        nprow: -1,
        npcol: -1,
        myrow: -1,
        mycol: -1,
    };
    assert_eq!(rt; by_columns.gridinfo(6), outside);
    Ok(())
}

#[test]
fn scopes_in_their_order(rt: HostRuntime) -> Result<(), Fail> {
    let world = World::new(6).ok_or("a world")?;
    let grid = gridinit(rt.alloc(), &world, Order::R, 2, 3)?;
    assert!(rt; grid.nprow() == 2 && grid.npcol() == 3);
    assert_eq!(rt;
        scope_members(rt.alloc(), &grid, Scope::Row(1))?.as_slice(),
        [3, 4, 5].as_slice()
    );
    assert_eq!(rt;
        scope_members(rt.alloc(), &grid, Scope::Column(1))?.as_slice(),
        [1, 4].as_slice()
    );
    assert_eq!(rt;
        scope_members(rt.alloc(), &grid, Scope::All)?.as_slice(),
        [0, 1, 2, 3, 4, 5].as_slice()
    );
    Ok(())
}

#[test]
fn shapes_that_are_refused(rt: HostRuntime) -> Result<(), Fail> {
    let world = World::new(5).ok_or("a world")?;
    let cases = [
        (2, 3, GridErr::TooMany(6, 5)),
        (0, 3, GridErr::BadShape(0, 3)),
        (3, 0, GridErr::BadShape(3, 0)),
        (65, 1, GridErr::BadShape(65, 1)),
        (64, 64, GridErr::TooMany(4096, 5)),
    ];
    for (nprow, npcol, refusal) in cases {
        assert_eq!(rt;
            gridinit(rt.alloc(), &world, Order::C, nprow, npcol).err(),
            Some(refusal),
            "at {nprow} by {npcol}"
        );
    }
    Ok(())
}

// A map lies by columns, and its places are looked at by rows.
#[test]
fn maps_and_their_refusals(rt: HostRuntime) -> Result<(), Fail> {
    let world = World::new(4).ok_or("a world")?;
    let grid = gridmap(rt.alloc(), &world, &[3, 9, 1, 9, 0], 2, 1, 3)?;
    assert_eq!(rt; grid.ranks(), [3, 1, 0].as_slice());
    assert_eq!(rt; grid.pcoord(0), (0, 2));
    assert_eq!(rt; grid.pcoord(2), (-1, -1));
    let twice = gridmap(rt.alloc(), &world, &[2, 2], 1, 1, 2).err();
    assert_eq!(rt; twice, Some(GridErr::Twice(2)));
    // by rows it is 0, 1, 1, 9, and by columns 0, 1, 1, 9 as well: the place of the second 1 comes first
    let first_bad = gridmap(rt.alloc(), &world, &[0, 1, 1, 9], 2, 2, 2).err();
    assert_eq!(rt; first_bad, Some(GridErr::Twice(1)));
    let no_rank = gridmap(rt.alloc(), &world, &[0, 1, 9, 1], 2, 2, 2).err();
    assert_eq!(rt; no_rank, Some(GridErr::NoProcess(9)));
    // by rows it is 0, 0, 9, 1, and by columns 0, 9, 0, 1
    let by_rows = gridmap(rt.alloc(), &world, &[0, 9, 0, 1], 2, 2, 2).err();
    assert_eq!(rt; by_rows, Some(GridErr::Twice(0)));
    // the map's leading dimension, its rows and columns, and the refusal, which comes before that of process 9
    let cases = [
        (0, 0, 1, GridErr::BadShape(0, 1)),
        (1, 1, 65, GridErr::BadShape(1, 65)),
        (1, 2, 3, GridErr::TooMany(6, 4)),
        (1, 2, 2, GridErr::BadLead),
        (5, 2, 2, GridErr::BadLead),
        (2, 2, 2, GridErr::NoProcess(9)),
    ];
    for (lead, nprow, npcol, refusal) in cases {
        let answer = gridmap(rt.alloc(), &world, &[9, 9, 9, 9], lead, nprow, npcol).err();
        assert_eq!(rt; answer, Some(refusal), "{lead} {nprow} {npcol}");
    }
    Ok(())
}

// Four contexts more, by turns of one row and of one column; the answer is the number of the last.
fn four_more(alloc: Global, world: &World, contexts: &mut Contexts) -> Result<u32, GridErr>
    requires { length contexts.old < 60000 }
    ensures { IfOk result (λ _. length contexts.new ≡ length contexts.old + 4) }
{
    contexts.add(gridinit(alloc, world, Order::R, 1, 2)?)?;
    contexts.add(gridinit(alloc, world, Order::R, 2, 1)?)?;
    contexts.add(gridinit(alloc, world, Order::R, 1, 2)?)?;
    Ok(contexts.add(gridinit(alloc, world, Order::R, 2, 1)?)?)
}

#[test]
fn contexts_by_number(rt: HostRuntime) -> Result<(), Fail> {
    let world = World::new(2).ok_or("a world")?;
    let mut contexts = Contexts::new(rt.alloc())?;
    assert!(rt; contexts.get(0).is_none());
    assert_eq!(rt; four_more(rt.alloc(), &world, &mut contexts)?, 3);
    assert_eq!(rt; four_more(rt.alloc(), &world, &mut contexts)?, 7);
    assert_eq!(rt; four_more(rt.alloc(), &world, &mut contexts)?, 11);
    assert_eq!(rt; four_more(rt.alloc(), &world, &mut contexts)?, 15);
    let last = contexts.add(gridinit(rt.alloc(), &world, Order::R, 1, 2)?)?;
    assert_eq!(rt; last, 16);
    for (number, nprow) in [(0, 1), (1, 2), (15, 2), (16, 1)] {
        assert_eq!(rt;
            contexts.get(number).map(|context| context.nprow()),
            Some(nprow)
        );
    }
    for number in [17, -1, i64::MAX, i64::MIN] {
        assert!(rt; contexts.get(number).is_none(), "at {number}");
    }
    Ok(())
}
