//! How lines are cut, and in which case words may stand.
use crate::reading::{ends_with, fault_of, lines_of};
use grid_lang::LangFault;
use std::test::Fail;

#[test]
fn keywords_in_any_case_and_names_in_their_own(rt: HostRuntime) -> Result<(), Fail> {
    let alloc = rt.alloc();
    let text = b"ranks 2\nGrid w r 1 2\nmatrix v 1 1\nMATRIX V 2 2\n\
        send w 0 0 v 1 1 1 1 0 1\nPrInT V 1";
    assert!(rt; ends_with(alloc, text, "6 PrintMatrix { array: 1, rank: 1 }")?);
    assert_eq!(rt;
        fault_of(alloc, b"RANKS 2\nMATRIX v 1 1\nPRINT V 1\n"),
        Some((3, LangFault::Name))
    );
    Ok(())
}

#[test]
fn lines_with_returns_blanks_and_comments(rt: HostRuntime) -> Result<(), Fail> {
    let alloc = rt.alloc();
    let rows: [(&[u8], usize); 8] = [
        (b"RANKS 1\r\n\r\nGRID w R 1 1\r\n", 2),
        (b"\n \t \n\tRANKS\t 1 \t\n", 1),
        (b"# first\nRANKS 1\n \t# \x00\xff\x0b\n#", 1),
        (b"#\nRANKS 1", 1),
        (b"RANKS 1\n#RANKS 2\n", 1),
        (
            b"RANKS 1\nMATRIX v 1 1\nFILL v 1 0 0 0\nFILL v 2 0 0 0\nPRINT v 0\nSAVE v v",
            0,
        ),
        (
            b"RANKS 1\nGRID w R 1 1\nARRAY a w 1 1 1 1 0 0\nPRINT a\nSAVE a a\nPRINT a\n",
            6,
        ),
        (
            b"RANKS 1\nGRID w R 1 1\nBARRIER w A\nBARRIER w A\nPRINT w\n",
            0,
        ),
    ];
    for (text, count) in rows {
        let wanted = if count == 0 { None } else { Some(count) };
        assert_eq!(rt; lines_of(alloc, text), wanted);
    }
    Ok(())
}
