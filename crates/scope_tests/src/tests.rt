//! What broadcasts, combines, barriers and messages leave in the arrays, and what refuses them.

use crate::joint::{Joint, run_joint};
use crate::memories::Fill;
use crate::messages::{Side, crowded, exchange, unsent};
use crate::trial::begin;
use crate::trouble::Trouble;
use pack_words::{Diag, Uplo};
use proc_grid::Scope;
use scope_ops::{Part, ScopeErr, Spot};
use std::test::Fail;

// Every character of a topology.
const LETTERS: [char; 17] = [
    'I', 'D', 'S', 'H', 'F', 'M', 'T', '1', '2', '3', '4', '5', '6', '7', '8', '9', ' ',
];

const HERE: Spot = Spot {
    array: 0,
    i: 1,
    j: 1,
};

// The upper left corner of an array.
fn corner(array: u32, m: u32, n: u32) -> Part {
    Part {
        array,
        i: 1,
        j: 1,
        m,
        n,
    }
}

// One word on each rank.
fn words(ranks: [i32; 6]) -> Fill {
    Fill {
        ranks,
        row: 0,
        column: 0,
    }
}

// The first process of two and the second, each with the corner of its first array.
fn first(m: u32, n: u32, trapezoid: Option<(Uplo, Diag)>) -> Side {
    Side {
        me: (0, 0),
        part: corner(0, m, n),
        trapezoid,
        peer: (0, 1),
    }
}

fn second(m: u32, n: u32, trapezoid: Option<(Uplo, Diag)>) -> Side {
    Side {
        me: (0, 1),
        part: corner(0, m, n),
        trapezoid,
        peer: (0, 0),
    }
}

// The only process, with a part of its own and itself as the other.
fn alone(part: Part, trapezoid: Option<(Uplo, Diag)>) -> Side {
    Side {
        me: (0, 0),
        part,
        trapezoid,
        peer: (0, 0),
    }
}

#[test]
fn two_words_are_combined(rt: HostRuntime) -> Result<(), Fail> {
    let alloc = rt.alloc();
    let sum = Joint::Sum { dest: Some((0, 0)) };
    let greatest = Joint::Greatest {
        rc: Some((1, 2)),
        dest: None,
    };
    let least = Joint::Least {
        rc: None,
        dest: None,
    };
    for (call, have, want, numbers) in [
        (sum, [2147483647, 1], [-2147483648, 1], (5, 1, 1)),
        (greatest, [-5, 5], [-5, -5], (8, 2, 4)),
        (
            greatest,
            [-2147483648, 2147483647],
            [-2147483648, -2147483648],
            (8, 2, 4),
        ),
        (least, [-5, 5], [-5, -5], (8, 2, 4)),
    ] {
        let trial = begin(alloc, 2, (1, 2), &[(1, 1), (1, 1), (1, 1)]).or(Err("trial"))?;
        let fill = words([have[0], have[1], 0, 0, 0, 0]);
        let after = run_joint(alloc, trial, &fill, Scope::All, 'H', &corner(0, 1, 1), call).or(Err(
            "call",
        ))?;
        assert_eq!(rt; after.numbers, numbers);
        for rank in 0..2 {
            assert_eq!(rt; after.word(rank, 0, 0, 0), Some(want[rank]));
            if matches!(&call, Joint::Greatest { .. }) {
                assert_eq!(rt; after.word(rank, 1, 0, 0), Some(0));
                assert_eq!(rt; after.word(rank, 2, 0, 0), Some(0));
            }
        }
    }
    Ok(())
}

#[test]
fn others_keep_their_words(rt: HostRuntime) -> Result<(), Fail> {
    let alloc = rt.alloc();
    let call = Joint::Greatest {
        rc: None,
        dest: Some((0, 2)),
    };
    for letter in LETTERS {
        let trial = begin(alloc, 3, (1, 3), &[(1, 1)]).or(Err("trial"))?;
        let fill = words([4, -9, 9, 0, 0, 0]);
        let after = run_joint(
            alloc,
            trial,
            &fill,
            Scope::Row(0),
            letter,
            &corner(0, 1, 1),
            call,
        )
        .or(Err("greatest"))?;
        assert_eq!(rt; after.word(0, 0, 0, 0), Some(4));
        assert_eq!(rt; after.word(1, 0, 0, 0), Some(-9));
        assert_eq!(rt; after.word(2, 0, 0, 0), Some(-9));
    }
    Ok(())
}

#[test]
fn every_topology_gives_the_same_arrays(rt: HostRuntime) -> Result<(), Fail> {
    let alloc = rt.alloc();
    let fill = words([7, -3, -11, 0, 2, 0]);
    let part = corner(0, 1, 1);
    for letter in LETTERS {
        for (n, total, most, holder, last) in [
            (1, 7, 7, 0, 7),
            (2, 4, 7, 0, -3),
            (5, -5, -11, 2, 2),
            (64, -5, -11, 2, 0),
        ] {
            let sum = Joint::Sum { dest: None };
            let greatest = Joint::Greatest {
                rc: Some((1, 2)),
                dest: None,
            };
            let broadcast = Joint::Broadcast {
                src: (0, n - 1),
                rcv: HERE,
            };
            for (call, word, column, ops) in [
                (sum, total, 0, 6 * n - 4),
                (greatest, most, holder, 6 * n - 4),
                (broadcast, last, 0, 2 * n - 2),
            ] {
                let sizes = [(1, 1), (1, 1), (1, 1)];
                let trial = begin(alloc, n, (1, n), &sizes).or(Err("trial"))?;
                let after = run_joint(alloc, trial, &fill, Scope::All, letter, &part, call).or(Err(
                    "call",
                ))?;
                assert_eq!(rt; after.numbers.0, ops);
                for rank in 0..n as usize {
                    assert_eq!(rt; after.word(rank, 0, 0, 0), Some(word));
                    if matches!(&call, Joint::Greatest { .. }) {
                        assert_eq!(rt; after.word(rank, 1, 0, 0), Some(0));
                        assert_eq!(rt; after.word(rank, 2, 0, 0), Some(column));
                    }
                }
            }
        }
    }
    Ok(())
}

#[test]
fn messages_and_words_are_counted(rt: HostRuntime) -> Result<(), Fail> {
    let alloc = rt.alloc();
    let from_first = Joint::Broadcast {
        src: (0, 0),
        rcv: HERE,
    };
    let from_fourth = Joint::Broadcast {
        src: (0, 3),
        rcv: HERE,
    };
    let from_second_row = Joint::Broadcast {
        src: (1, 0),
        rcv: HERE,
    };
    let upper = Joint::Trapezoid {
        uplo: Uplo::Upper,
        diag: Diag::N,
        src: (0, 0),
        rcv: HERE,
    };
    // the grid, the scope, the part, the call, and the numbers; then the words of rank 1 at the two places of its first
    // column and at the second of the next
    for (grid, scope, part, call, numbers, want) in [
        (
            (2, 2),
            Scope::All,
            corner(0, 0, 3),
            from_first,
            (6, 3, 0),
            [20, 21, 31],
        ),
        (
            (1, 5),
            Scope::All,
            corner(0, 1, 1),
            from_fourth,
            (8, 4, 4),
            [40, 21, 31],
        ),
        (
            (2, 1),
            Scope::Row(1),
            corner(0, 2, 2),
            from_second_row,
            (0, 0, 0),
            [20, 21, 31],
        ),
        (
            (1, 2),
            Scope::All,
            corner(0, 2, 2),
            upper,
            (2, 1, 3),
            [10, 21, 21],
        ),
        (
            (1, 2),
            Scope::All,
            corner(0, 1, 1),
            Joint::Barrier,
            (4, 2, 0),
            [20, 21, 31],
        ),
    ] {
        let trial = begin(alloc, grid.0 * grid.1, grid, &[(2, 3)]).or(Err("trial"))?;
        let fill = Fill {
            ranks: [10, 20, 30, 40, 50, 60],
            row: 1,
            column: 10,
        };
        let after = run_joint(alloc, trial, &fill, scope, 'I', &part, call).or(Err("call"))?;
        assert_eq!(rt; after.numbers, numbers);
        assert_eq!(rt; after.word(1, 0, 0, 0), Some(want[0]));
        assert_eq!(rt; after.word(1, 0, 1, 0), Some(want[1]));
        assert_eq!(rt; after.word(1, 0, 1, 1), Some(want[2]));
    }
    Ok(())
}

#[test]
fn rows_and_columns_are_the_grids(rt: HostRuntime) -> Result<(), Fail> {
    let alloc = rt.alloc();
    let trial = begin(alloc, 6, (2, 3), &[(2, 2), (2, 2), (2, 2)]).or(Err("trial"))?;
    let fill = Fill {
        ranks: [0, 10, 20, 30, 40, 50],
        row: 1,
        column: 2,
    };
    let part = Part {
        array: 0,
        i: 2,
        j: 1,
        m: 1,
        n: 2,
    };
    let call = Joint::Greatest {
        rc: Some((1, 2)),
        dest: Some((0, 1)),
    };
    let after = run_joint(alloc, trial, &fill, Scope::Column(1), 'T', &part, call).or(Err(
        "greatest",
    ))?;
    for (rank, array, i, j, want) in [
        (1, 0, 1, 0, 41),
        (1, 0, 1, 1, 43),
        (1, 0, 0, 0, 10),
        (1, 1, 0, 0, 1),
        (1, 1, 0, 1, 1),
        (1, 1, 1, 0, 11),
        (1, 2, 0, 0, 1),
        (4, 0, 1, 0, 41),
    ] {
        assert_eq!(rt; after.word(rank, array, i, j), Some(want));
    }
    Ok(())
}

#[test]
fn a_process_sends_to_itself(rt: HostRuntime) -> Result<(), Fail> {
    let alloc = rt.alloc();
    let from = Part {
        array: 0,
        i: 2,
        j: 2,
        m: 2,
        n: 2,
    };
    for (trapezoid, numbers, want) in [
        (None, (2, 1, 4), [16, 17, 26, 27]),
        (Some((Uplo::Upper, Diag::N)), (2, 1, 3), [16, 6, 26, 27]),
        (Some((Uplo::Lower, Diag::U)), (2, 1, 1), [5, 17, 15, 16]),
    ] {
        let trial = begin(alloc, 1, (1, 1), &[(3, 3), (2, 2)]).or(Err("trial"))?;
        let fill = Fill {
            ranks: [5, 0, 0, 0, 0, 0],
            row: 1,
            column: 10,
        };
        let sent = alone(from, trapezoid);
        let got = alone(corner(1, 2, 2), trapezoid);
        let after = exchange(alloc, trial, &fill, &sent, &got).or(Err("exchange"))?;
        assert_eq!(rt; after.numbers, numbers);
        for k in 0..4u32 {
            assert_eq!(rt; after.word(0, 1, k % 2, k / 2), Some(want[k as usize]));
        }
    }
    Ok(())
}

#[test]
fn messages_are_refused(rt: HostRuntime) -> Result<(), Fail> {
    let alloc = rt.alloc();
    let unit = Some((Uplo::Upper, Diag::U));
    let full = Some((Uplo::Upper, Diag::N));
    for (sent, got, want) in [
        (
            first(2, 3, None),
            second(2, 2, None),
            ScopeErr::WrongLength(6, 4),
        ),
        (
            first(2, 2, unit),
            second(2, 2, full),
            ScopeErr::WrongLength(1, 3),
        ),
        (first(3, 1, None), second(1, 1, None), ScopeErr::OutOfArray),
    ] {
        let trial = begin(alloc, 2, (1, 2), &[(2, 3)]).or(Err("trial"))?;
        let refused = exchange(alloc, trial, &words([1, 2, 0, 0, 0, 0]), &sent, &got).err();
        assert_eq!(rt; refused, Some(Trouble::Refused(want)));
    }
    let trial = begin(alloc, 2, (1, 2), &[(2, 3)]).or(Err("trial"))?;
    let refused = unsent(alloc, trial, &second(2, 3, None)).err();
    assert_eq!(rt; refused, Some(Trouble::Refused(ScopeErr::NoMessage(0, 1))));
    Ok(())
}

#[test]
fn a_full_plan_takes_no_more(rt: HostRuntime) -> Result<(), Fail> {
    let alloc = rt.alloc();
    let trial = begin(alloc, 1, (1, 1), &[(1, 1)]).or(Err("trial"))?;
    let crowd = crowded(alloc, trial, &alone(corner(0, 1, 1), None)).or(Err("crowd"))?;
    assert_eq!(rt; crowd.0, 1_048_576);
    assert_eq!(rt;
        crowd.1,
        [Some(ScopeErr::TooManyOps), None, Some(ScopeErr::TooManyOps)]
    );
    Ok(())
}

#[test]
fn combines_are_refused(rt: HostRuntime) -> Result<(), Fail> {
    let alloc = rt.alloc();
    for (rc, dest, want) in [
        (Some((1, 1)), (0, 0), ScopeErr::SameArray),
        (Some((1, 2)), (0, 0), ScopeErr::BadRcLead(1, 2)),
        (Some((1, 3)), (0, 0), ScopeErr::OutOfArray),
        (None, (1, 0), ScopeErr::NotInGrid),
    ] {
        let sizes = [(2, 2), (2, 2), (1, 2), (2, 1)];
        let trial = begin(alloc, 1, (1, 1), &sizes).or(Err("trial"))?;
        let call = Joint::Greatest {
            rc,
            dest: Some(dest),
        };
        let fill = words([1, 0, 0, 0, 0, 0]);
        let refused = run_joint(alloc, trial, &fill, Scope::All, 'H', &corner(0, 2, 2), call).err();
        assert_eq!(rt; refused, Some(Trouble::Refused(want)));
    }
    Ok(())
}
