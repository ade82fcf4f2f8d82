//! The first refused line of programs, and why.
use crate::answers::refusal_of;
use grid_exec::ExecFault;
use std::test::Fail;

#[test]
fn lines_that_are_refused(rt: HostRuntime) -> Result<(), Fail> {
    let alloc = rt.alloc();
    let rows = [
        ("RANKS 2\nGRID w R 1 2\nARRAY a w 4 4 2 2 0 0 3\n", 3),
        ("RANKS 2\nGRID w R 1 3\n", 2),
        ("RANKS 2\nMAP w 1 2 1 1\n", 2),
        (
            "RANKS 2\n\nGRID w R 1 2\nMATRIX v 1 1\nRECV w 0 1 v 1 1 1 1 0 0\n",
            5,
        ),
        (
            "RANKS 2\nGRID w R 1 2\nMATRIX v 1 1\nSEND w 0 0 v 1 1 1 1 0 1\nBARRIER w A\n",
            5,
        ),
    ];
    for (text, number) in rows {
        let line = match refusal_of(alloc, text) {
            Some((line, _fault)) => line,
            None => 0,
        };
        assert_eq!(rt; line, number, "{text}");
    }
    Ok(())
}

#[test]
fn words_of_all_arrays(rt: HostRuntime) -> Result<(), Fail> {
    let alloc = rt.alloc();
    let just = "RANKS 1\nGRID w R 1 1\nARRAY a w 8192 8192 1 1 0 0\n";
    assert_eq!(rt; refusal_of(alloc, just), None);
    let more = "RANKS 1\nGRID w R 1 1\nARRAY a w 8192 8193 1 1 0 0\n";
    assert_eq!(rt;
        refusal_of(alloc, more),
        Some((3, ExecFault::TooLarge(67117056)))
    );
    Ok(())
}

#[test]
fn messages_that_wait(rt: HostRuntime) -> Result<(), Fail> {
    let alloc = rt.alloc();
    let text = "RANKS 2\nGRID w R 1 2\nMATRIX v 1 1\nSEND w 0 0 v 1 1 1 1 0 1\nBARRIER w A\n";
    assert_eq!(rt;
        refusal_of(alloc, text),
        Some((5, ExecFault::Waiting(0, 1)))
    );
    Ok(())
}
