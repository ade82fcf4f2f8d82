//! Worked programs are read, those whose exchanges are refused later too.
use crate::reading::lines_of;
use std::test::Fail;

const PAIR: &str = "RANKS 2\nGRID w R 1 2\n";

const ALONE: &str = "RANKS 1\nGRID w R 1 1\n";

const DISJOINT: &str =
    "RANKS 2\nMAP g 1 1 0\nMAP h 1 1 1\nGRID w R 1 2\nARRAY a g 2 2 2 2 0 0\nARRAY b h 2 2 2 2 0 0 5\nFILL a 1 1 10 0\nFILL b 0 0 0 7\n";

#[test]
fn worked_programs_are_read(rt: HostRuntime) -> Result<(), Fail> {
    let alloc = rt.alloc();
    let rows = [
        (
            DISJOINT,
            "GEMR2D 2 2 a 1 1 b 1 1 w\nSAVE b t PIECES\nPRINT b\n",
            11,
        ),
        (
            DISJOINT,
            "GEMR2D 2 2 a 1 1 b 1 1 g\nSAVE b t PIECES\nPRINT b\n",
            11,
        ),
        (
            ALONE,
            "ARRAY a w 3 2 3 2 0 0\nARRAY b w 3 2 3 2 0 0\nFILL a 1 1 10 0\nTRMR2D U N 3 2 a 1 1 b 1 1 w\nPRINT b\n",
            7,
        ),
        (
            ALONE,
            "ARRAY a w 3 2 3 2 0 0\nARRAY b w 3 2 3 0 0 0\nFILL a 1 1 10 0\nTRMR2D X U 3 2 a 1 1 b 1 1 w\nPRINT b\n",
            7,
        ),
        (
            ALONE,
            "ARRAY a w 3 2 3 2 0 0\nFILL a 1 1 10 0\nGEMR2D 3 2 a 1 1 a 1 1 w\nPRINT a\n",
            6,
        ),
        (
            PAIR,
            "MATRIX v 1 1\nFILL v 2147483647 0 0 -2147483646\nSUM w A H 0 0 v 1 1 1 1\n",
            5,
        ),
        (
            PAIR,
            "MATRIX v 1 1\nMATRIX r 1 1\nMATRIX c 1 1\nFILL v -5 0 0 10\nAMX w A H -1 0 v 1 1 1 1 r c\n",
            7,
        ),
        (ALONE, "MATRIX v 1 1\nBCAST w A H 0 0 v 1 1 1 1\n", 4),
        (
            "RANKS 5\nGRID w R 1 5\n",
            "MATRIX v 1 1\nFILL v 0 0 0 1\nBCAST w A I 0 3 v 1 1 1 1\nPRINT v 4\n",
            6,
        ),
        (
            PAIR,
            "MATRIX v 2 3\nRECV w 0 1 v 1 1 2 3 0 0\nSEND w 0 0 v 1 1 2 3 0 1\n",
            5,
        ),
        (
            PAIR,
            "MATRIX v 2 3\nSEND w 0 0 v 1 1 2 3 0 1\nRECV w 0 1 v 1 1 2 2 0 0\n",
            5,
        ),
        (
            PAIR,
            "MATRIX v 1 1\nSEND w 0 0 v 1 1 1 1 0 1\nBARRIER w A\n",
            5,
        ),
        (
            ALONE,
            "MATRIX v 2 2\nMATRIX u 2 2\nAMX w A H 0 0 v 1 1 2 2 u u\n",
            5,
        ),
        (
            ALONE,
            "MATRIX v 2 2\nMATRIX r 1 2\nMATRIX c 2 2\nAMX w A H 0 0 v 1 1 2 2 r c\n",
            6,
        ),
        (PAIR, "BARRIER w A\n", 3),
    ];
    for (head, body, count) in rows {
        let text = format!(in alloc; "{head}{body}")?;
        assert_eq!(rt; lines_of(alloc, text.as_bytes()), Some(count), "{text}");
    }
    Ok(())
}
