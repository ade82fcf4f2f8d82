//! What calls with threads leave, and that threads ran.
use crate::calls::{Row, leaves};
use file_tools::Status;
use rank_runner::OpenGate;
use std::test::Fail;
use thread_tests::gates::MeetingGate;

// Both first operations of a sum are local.
const SUM: &str =
    "RANKS 2\nGRID w R 1 2\nMATRIX v 1 1\nFILL v 2147483647 0 0 -2147483646\nSUM w A H 0 0 v 1 1 1 1\nPRINT v 0\nPRINT v 1\n";

const MOVE: &str =
    "RANKS 2\nMAP g 1 1 0\nMAP h 1 1 1\nGRID w R 1 2\nARRAY a g 2 2 2 2 0 0\nARRAY b h 2 2 2 2 0 0 5\nFILL a 1 1 10 0\nFILL b 0 0 0 7\nGEMR2D 2 2 a 1 1 b 1 1 w\nSAVE b t PIECES\nPRINT b\n";

const MOVED: &str =
    "%%MatrixMarket matrix array integer general\n%DESC 1 1 0 0 2 2 2 2 0 0 5\n5 2\n1\n2\n7\n7\n7\n11\n12\n7\n7\n7\n";

const NO_MESSAGE: &str =
    "RANKS 2\nGRID w R 1 2\nMATRIX v 2 3\nRECV w 0 1 v 1 1 2 3 0 0\nSEND w 0 0 v 1 1 2 3 0 1\n";

const ROW_0: &str =
    "%%MatrixMarket matrix array integer general\n%DESC 2 1 0 0 4 1 1 1 0 0 2\n2 1\n10\n30\n";

const ROW_1: &str =
    "%%MatrixMarket matrix array integer general\n%DESC 2 1 1 0 4 1 1 1 0 0 2\n2 1\n20\n40\n";

const BLOCK_0: &str =
    "%%MatrixMarket matrix array integer general\n%DESC 2 1 0 0 4 1 2 1 0 0 2\n2 1\n10\n20\n";

const BLOCK_1: &str =
    "%%MatrixMarket matrix array integer general\n%DESC 2 1 1 0 4 1 2 1 0 0 2\n2 1\n30\n40\n";

#[test]
fn two_ranks_of_a_program_meet(rt: HostRuntime) -> Result<(), Fail> {
    let gate = MeetingGate::new(1_000_000);
    let row = Row {
        words: "run p --threads",
        before: [("p", SUM), ("q", "")],
        status: Status::Done,
        out: "v rank 0 1 1\n-2147483648\nv rank 1 1 1\n1\n",
        err: "",
        after: [("p", SUM), ("q", "")],
    };
    assert!(rt; leaves(&rt, rt.alloc(), &row, &gate)?);
    assert!(rt; gate.have_met());
    Ok(())
}

fn program_row(words: &'static str) -> Row {
    Row {
        words,
        before: [("p", MOVE), ("t.0.0", "")],
        status: Status::Done,
        out: "b 2 2\n1 11\n2 12\n",
        err: "",
        after: [("p", MOVE), ("t.0.0", MOVED)],
    }
}

fn refused_row(words: &'static str, status: Status, err: &'static str) -> Row {
    Row {
        words,
        before: [("p", NO_MESSAGE), ("s.0.0", ROW_0)],
        status,
        out: "",
        err,
        after: [("p", NO_MESSAGE), ("s.0.0", ROW_0)],
    }
}

fn move_row(words: &'static str) -> Row {
    Row {
        words,
        before: [("s.0.0", ROW_0), ("s.1.0", ROW_1)],
        status: Status::Done,
        out: "meets 4 messages 2 copies 2\n",
        err: "",
        after: [("t.0.0", BLOCK_0), ("t.1.0", BLOCK_1)],
    }
}

#[test]
fn calls_leave_the_same_however_they_run(rt: HostRuntime) -> Result<(), Fail> {
    let rows = [
        program_row("run p"),
        program_row("run p --seed 1"),
        program_row("run p --seed 2"),
        program_row("run p --threads"),
        move_row("move s t 2 1 2 1"),
        move_row("move s t 2 1 2 1 --seed 1"),
        move_row("move --threads s t 2 1 2 1"),
        refused_row(
            "run p --threads",
            Status::Refused,
            "gridtool: p: line 4: no message from 0 to 1\n",
        ),
        refused_row("run q --threads", Status::Store, "gridtool: q: missing\n"),
        refused_row(
            "move s t 2 1 2 1 --threads",
            Status::Store,
            "gridtool: s.1.0: missing\n",
        ),
    ];
    for row in &rows {
        assert!(rt; leaves(&rt, rt.alloc(), row, &OpenGate)?, "{}", row.words);
    }
    Ok(())
}
