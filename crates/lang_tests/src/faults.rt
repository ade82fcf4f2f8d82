//! Each fault of a line at each place where it can come.
use crate::reading::{fault_of, with_line};
use grid_lang::LangFault;
use std::test::Fail;

const DECLARED: &str = "RANKS 2
GRID w R 1 2
MATRIX v 1 1
ARRAY a w 1 1 1 1 0 0
";

#[test]
fn lines_in_the_wrong_part(rt: HostRuntime) -> Result<(), Fail> {
    let alloc = rt.alloc();
    let rows = [
        ("", "GRID w R 1 1\nRANKS 1\n", 1),
        ("", "# first\nPRINT v 0\n", 2),
        ("RANKS 2\n", "RANKS 2\n", 2),
        (DECLARED, "BARRIER w A\nMATRIX u 1 1\n", 6),
        (DECLARED, "BARRIER w A\nFILL v x\n", 6),
        (DECLARED, "BARRIER w A\nLOAD a f\n", 6),
        (DECLARED, "BARRIER w A\nMAP h 1 1 0\n", 6),
        (DECLARED, "PRINT a\nARRAY b w 1 1 1 1 0 0\n", 6),
        (DECLARED, "PRINT a\nGRID g R 1 1\n", 6),
        (DECLARED, "SAVE a f\nBARRIER w A\n", 6),
        (DECLARED, "SAVE a f\nGEMR2D x\n", 6),
        (DECLARED, "PRINT a\nRANKS 2\n", 6),
    ];
    for (text, line, number) in rows {
        let whole = with_line(alloc, text, line)?;
        assert_eq!(rt;
            fault_of(alloc, whole.as_bytes()),
            Some((number, LangFault::Order)),
            "{line}"
        );
    }
    assert_eq!(rt; fault_of(alloc, b""), Some((1, LangFault::Order)));
    assert_eq!(rt; fault_of(alloc, b"#"), Some((2, LangFault::Order)));
    assert_eq!(rt;
        fault_of(alloc, b"\n\n# nothing\n"),
        Some((4, LangFault::Order))
    );
    Ok(())
}

#[test]
fn first_words_and_bytes(rt: HostRuntime) -> Result<(), Fail> {
    let alloc = rt.alloc();
    let rows = [
        ("\u{7f}", LangFault::NotText),
        ("PRINT \u{7f}", LangFault::NotText),
        ("\u{b}# no comment", LangFault::NotText),
        ("JUMP \u{e9}", LangFault::NotText),
        ("RANKS\u{1} 2", LangFault::NotText),
        ("JUMP w", LangFault::Unknown),
        ("RANK 2", LangFault::Unknown),
        ("%", LangFault::Unknown),
        ("RANKS2", LangFault::Unknown),
        ("SENDS", LangFault::Unknown),
        ("v", LangFault::Unknown),
        ("1", LangFault::Unknown),
        ("RANKS 2", LangFault::Order),
        ("RANKS x", LangFault::Order),
    ];
    for (line, what) in rows {
        let whole = with_line(alloc, DECLARED, line)?;
        assert_eq!(rt;
            fault_of(alloc, whole.as_bytes()),
            Some((5, what)),
            "{line}"
        );
    }
    Ok(())
}

#[test]
fn numbers_of_words(rt: HostRuntime) -> Result<(), Fail> {
    let alloc = rt.alloc();
    let rows = [
        ("GRID", LangFault::Words),
        ("GRID g R 1", LangFault::Words),
        ("GRID g R 1 1 1", LangFault::Words),
        ("MAP", LangFault::Words),
        ("MAP g 1", LangFault::Words),
        ("MAP g x", LangFault::Words),
        ("MAP g 1 1", LangFault::Words),
        ("MAP 9g 1 1", LangFault::Words),
        ("MAP g 1 1 0 0", LangFault::Words),
        ("MAP g 2 2 0 1 0", LangFault::Words),
        ("ARRAY b w 1 1 1 1 0", LangFault::Words),
        ("ARRAY b w 1 1 1 1 0 0 1 1", LangFault::Words),
        ("MATRIX u 1", LangFault::Words),
        ("MATRIX u 1 1 1", LangFault::Words),
        ("LOAD a", LangFault::Words),
        ("LOAD a f g", LangFault::Words),
        ("FILL v 0 0 0", LangFault::Words),
        ("FILL a 0 0 0 0 0", LangFault::Words),
        ("SEND w 0 0 v 1 1 1 1 0", LangFault::Words),
        ("SEND w 0 0 v 1 1 1 1 0 0 U", LangFault::Words),
        ("SEND w 0 0 v 1 1 1 1 0 0 U N N", LangFault::Words),
        ("RECV w 0 0 v 1 1 1 1 0", LangFault::Words),
        ("RECV w 0 0 v 1 1 1 1 0 0 U", LangFault::Words),
        ("RECV x y", LangFault::Words),
        ("BCAST w A I 0 0 v 1 1 1", LangFault::Words),
        ("BCAST w A I 0 0 v 1 1 1 1 U", LangFault::Words),
        ("SUM w A I 0 0 v 1 1 1", LangFault::Words),
        ("SUM w A I 0 0 v 1 1 1 1 v", LangFault::Words),
        ("AMX w A I 0 0 v 1 1 1", LangFault::Words),
        ("AMX w A I 0 0 v 1 1 1 1 v", LangFault::Words),
        ("AMN w A I 0 0 v 1 1 1", LangFault::Words),
        ("AMN w A I 0 0 v 1 1 1 1 v v v", LangFault::Words),
        ("BARRIER w", LangFault::Words),
        ("BARRIER w A A", LangFault::Words),
        ("GEMR2D 1 1 a 1 1 a 1 1", LangFault::Words),
        ("GEMR2D 1 1 a 1 1 a 1 1 w w", LangFault::Words),
        ("TRMR2D U N 1 1 a 1 1 a 1 1", LangFault::Words),
        ("TRMR2D U N 1 1 a 1 1 a 1 1 w w", LangFault::Words),
        ("SAVE a", LangFault::Words),
        ("SAVE a p PIECES x", LangFault::Words),
        ("PRINT", LangFault::Words),
        ("PRINT a 0", LangFault::Words),
        ("PRINT v", LangFault::Words),
        ("PRINT v 0 0", LangFault::Words),
    ];
    for (line, what) in rows {
        let whole = with_line(alloc, DECLARED, line)?;
        assert_eq!(rt;
            fault_of(alloc, whole.as_bytes()),
            Some((5, what)),
            "{line}"
        );
    }
    Ok(())
}

#[test]
fn words_that_stand_for_nothing(rt: HostRuntime) -> Result<(), Fail> {
    let alloc = rt.alloc();
    let rows = [
        ("GRID g X 1 1", LangFault::Unknown),
        ("GRID g RR x 1", LangFault::Unknown),
        ("BCAST w B I 0 0 v 1 1 1 1", LangFault::Unknown),
        ("BCAST w A2 I 0 0 v 1 1 1 1", LangFault::Unknown),
        ("BCAST w R I 0 0 v 1 1 1 1", LangFault::Unknown),
        ("BCAST w R-1 I 0 0 v 1 1 1 1", LangFault::Unknown),
        ("BCAST w C+1 I 0 0 v 1 1 1 1", LangFault::Unknown),
        ("BCAST w R2147483648 I 0 0 v 1 1 1 1", LangFault::Unknown),
        ("BCAST w A 0 0 0 v 1 1 1 1", LangFault::Unknown),
        ("BCAST w A II 0 0 v 1 1 1 1", LangFault::Unknown),
        ("SUM w A x -1 0 v 1 1 1 1", LangFault::Unknown),
        ("BARRIER w All", LangFault::Unknown),
        ("SEND w 0 0 v 1 1 1 1 0 0 N U", LangFault::Unknown),
        ("SEND w 0 0 v 1 1 1 1 0 0 U L", LangFault::Unknown),
        ("RECV w 0 0 v 1 1 1 1 0 0 UU N", LangFault::Unknown),
        ("BCAST w A I 0 0 v 1 1 1 1 X N", LangFault::Unknown),
        ("TRMR2D UP N 1 1 a 1 1 a 1 1 w", LangFault::Unknown),
        ("TRMR2D U NO 1 1 a 1 1 a 1 1 w", LangFault::Unknown),
        ("SAVE a p PIECE", LangFault::Unknown),
    ];
    for (line, what) in rows {
        let whole = with_line(alloc, DECLARED, line)?;
        assert_eq!(rt;
            fault_of(alloc, whole.as_bytes()),
            Some((5, what)),
            "{line}"
        );
    }
    Ok(())
}

#[test]
fn bad_numbers(rt: HostRuntime) -> Result<(), Fail> {
    let alloc = rt.alloc();
    let rows = [
        ("GRID g R x 1", LangFault::Number),
        ("GRID g R 1 -1", LangFault::Number),
        ("MAP g x 1", LangFault::Number),
        ("MAP g 1 x 0", LangFault::Number),
        ("MAP g -1 1 0", LangFault::Number),
        ("MAP g 1 2 0 x", LangFault::Number),
        ("MAP g 1 1 -1", LangFault::Number),
        ("ARRAY b w x 1 1 1 0 0", LangFault::Number),
        ("ARRAY b w 1 1 1 1 0 2147483648", LangFault::Number),
        ("ARRAY b w 1 1 1 1 0 0 -2147483649", LangFault::Number),
        ("ARRAY b w 1 1 1 1 0 0 1.0", LangFault::Number),
        ("MATRIX u -1 1", LangFault::Number),
        ("MATRIX u 1 +", LangFault::Number),
        ("FILL v 0 0 0 --1", LangFault::Number),
        ("SEND w -1 0 v 1 1 1 1 0 0", LangFault::Number),
        ("SEND w 0 0 v 0x1 1 1 1 0 0", LangFault::Number),
        ("SEND w 0 0 v 1 1 1 -1 0 0", LangFault::Number),
        ("SEND w 0 0 v 1 1 1 1 0 -1", LangFault::Number),
        ("RECV w 0 -1 v 1 1 1 1 0 0", LangFault::Number),
        ("BCAST w A I -1 0 v 1 1 1 1", LangFault::Number),
        ("SUM w A I -2 0 v 1 1 1 1", LangFault::Number),
        ("SUM w A I -1 x v 1 1 1 1", LangFault::Number),
        ("SUM w A I -1 2147483648 v 1 1 1 1", LangFault::Number),
        ("SUM w A I 0 -1 v 1 1 1 1", LangFault::Number),
        ("AMX w A I x 0 v 1 1 1 1", LangFault::Number),
        ("AMN w A I 0 0 v 1 1 1 1.", LangFault::Number),
        ("GEMR2D 1 x a 1 1 a 1 1 w", LangFault::Number),
        ("GEMR2D 1 1 a 1 1 a 1 9999999999 w", LangFault::Number),
        ("PRINT v 2", LangFault::Number),
        ("PRINT v -1", LangFault::Number),
        ("PRINT v x", LangFault::Number),
    ];
    for (line, what) in rows {
        let whole = with_line(alloc, DECLARED, line)?;
        assert_eq!(rt;
            fault_of(alloc, whole.as_bytes()),
            Some((5, what)),
            "{line}"
        );
    }
    Ok(())
}

#[test]
fn bad_names(rt: HostRuntime) -> Result<(), Fail> {
    let alloc = rt.alloc();
    let rows = [
        ("GRID 9g R 1 1", LangFault::Name),
        ("GRID _g R 1 1", LangFault::Name),
        ("GRID g-h R 1 1", LangFault::Name),
        ("MAP 9g x 1 0", LangFault::Name),
        ("MAP 9g 1 1 x", LangFault::Name),
        ("ARRAY 1 w 1 1 1 1 0 0", LangFault::Name),
        ("ARRAY b v 1 1 1 1 0 0", LangFault::Name),
        ("ARRAY b nope 1 1 1 1 0 0", LangFault::Name),
        ("MATRIX u.v 1 1", LangFault::Name),
        ("LOAD v f", LangFault::Name),
        ("LOAD nope f", LangFault::Name),
        ("FILL w 0 0 0 0", LangFault::Name),
        ("SEND v 0 0 v 1 1 1 1 0 0", LangFault::Name),
        ("SEND w 0 0 w 1 1 1 1 0 0", LangFault::Name),
        ("SEND W 0 0 v 1 1 1 1 0 0", LangFault::Name),
        ("RECV nope 0 0 v 1 1 1 1 0 0", LangFault::Name),
        ("BCAST w A I 0 0 nope 1 1 1 1", LangFault::Name),
        ("SUM a A I 0 0 v 1 1 1 1", LangFault::Name),
        ("AMX w A I 0 0 v 1 1 1 1 w v", LangFault::Name),
        ("AMN w A I 0 0 v 1 1 1 1 v nope", LangFault::Name),
        ("BARRIER v A", LangFault::Name),
        ("GEMR2D 1 1 v 1 1 a 1 1 w", LangFault::Name),
        ("GEMR2D 1 1 a 1 1 w 1 1 w", LangFault::Name),
        ("GEMR2D 1 1 a 1 1 a 1 1 a", LangFault::Name),
        ("TRMR2D U N 1 1 a 1 1 v 1 1 w", LangFault::Name),
        ("SAVE v f", LangFault::Name),
        ("SAVE w p PIECES", LangFault::Name),
        ("PRINT nope 1 2 3", LangFault::Name),
        ("PRINT w", LangFault::Name),
        ("PRINT w 0 0", LangFault::Name),
    ];
    for (line, what) in rows {
        let whole = with_line(alloc, DECLARED, line)?;
        assert_eq!(rt;
            fault_of(alloc, whole.as_bytes()),
            Some((5, what)),
            "{line}"
        );
    }
    Ok(())
}

#[test]
fn names_that_are_declared(rt: HostRuntime) -> Result<(), Fail> {
    let alloc = rt.alloc();
    let rows = [
        ("GRID w R 1 1", LangFault::Twice),
        ("GRID v R 1 1", LangFault::Twice),
        ("MAP a 1 1 0", LangFault::Twice),
        ("ARRAY v w 1 1 1 1 0 0", LangFault::Twice),
        ("MATRIX a 1 1", LangFault::Twice),
        ("MATRIX w 1 1", LangFault::Twice),
        ("MATRIX v 0 x", LangFault::Twice),
    ];
    for (line, what) in rows {
        let whole = with_line(alloc, DECLARED, line)?;
        assert_eq!(rt;
            fault_of(alloc, whole.as_bytes()),
            Some((5, what)),
            "{line}"
        );
    }
    Ok(())
}

#[test]
fn the_first_bad_word_from_the_left(rt: HostRuntime) -> Result<(), Fail> {
    let alloc = rt.alloc();
    let rows = [
        ("SEND nope x 0 v 1 1 1 1 0 0", LangFault::Name),
        ("SEND w x 0 nope 1 1 1 1 0 0", LangFault::Number),
        ("BCAST w X I x 0 nope 1 1 1 1", LangFault::Unknown),
        ("AMX w A I 0 0 v 1 x 1 1 w v", LangFault::Number),
        ("ARRAY v nope x 1 1 1 0 0", LangFault::Twice),
        ("ARRAY b nope x 1 1 1 0 0", LangFault::Name),
        ("TRMR2D UP N x 1 nope 1 1 a 1 1 w", LangFault::Unknown),
        ("TRMR2D U N x 1 nope 1 1 a 1 1 w", LangFault::Number),
        ("SAVE nope p PIECE", LangFault::Name),
        ("SAVE a p PIECE", LangFault::Unknown),
        ("MATRIX a 0 0", LangFault::Twice),
        ("MATRIX 9 0 0", LangFault::Name),
    ];
    for (line, what) in rows {
        let whole = with_line(alloc, DECLARED, line)?;
        assert_eq!(rt;
            fault_of(alloc, whole.as_bytes()),
            Some((5, what)),
            "{line}"
        );
    }
    Ok(())
}

#[test]
fn sizes_past_their_limit(rt: HostRuntime) -> Result<(), Fail> {
    let alloc = rt.alloc();
    let rows = [
        ("MATRIX u 0 1", LangFault::Limit),
        ("MATRIX u 16777217 1", LangFault::Limit),
        ("MATRIX u 1 0", LangFault::Limit),
        ("MATRIX u 1 16777217", LangFault::Limit),
        ("MATRIX u 1 -0", LangFault::Limit),
    ];
    for (line, what) in rows {
        let whole = with_line(alloc, DECLARED, line)?;
        assert_eq!(rt;
            fault_of(alloc, whole.as_bytes()),
            Some((5, what)),
            "{line}"
        );
    }
    Ok(())
}

#[test]
fn numbers_of_ranks(rt: HostRuntime) -> Result<(), Fail> {
    let alloc = rt.alloc();
    let rows = [
        ("RANKS 1", None),
        ("RANKS +64", None),
        ("RANKS 0", Some((1, LangFault::Limit))),
        ("RANKS -0", Some((1, LangFault::Limit))),
        ("RANKS 65", Some((1, LangFault::Limit))),
        ("RANKS -1", Some((1, LangFault::Number))),
        ("RANKS 2147483648", Some((1, LangFault::Number))),
        ("RANKS x", Some((1, LangFault::Number))),
        ("RANKS", Some((1, LangFault::Words))),
        ("RANKS 1 1", Some((1, LangFault::Words))),
    ];
    for (line, wanted) in rows {
        assert_eq!(rt; fault_of(alloc, line.as_bytes()), wanted, "{line}");
    }
    Ok(())
}
