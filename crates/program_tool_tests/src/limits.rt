//! As many operations as a plan may have.
use crate::running::{Ended, run, text};
use file_tools::Status;
use std::alloc::{AllocError, Global};
use std::test::Fail;
use store_io::MemStore;

// A check of 2,759 sums to all of 64 ranks, each of 380 operations, and then of these lines.
fn check_after(alloc: Global, last: &str) -> Result<Ended, AllocError> {
    let mut program = String::from_str(
        alloc,
        "RANKS 64/GRID w R 8 8/MATRIX v 1 1/ARRAY a w 16 16 1 1 0 0/ARRAY b w 16 16 2 2 0 0/",
    )?;
    for _ in 0..2759 {
        program.push_str("SUM w A H -1 0 v 1 1 1 1/")?;
    }
    program.push_str(last)?;
    let program = text(alloc, program.as_str())?;
    let mut store = MemStore::new(alloc, 98304, 2)?;
    let _held = store.put("p.txt", program.as_bytes());
    run(alloc, &mut store, "check p.txt")
}

#[test]
fn operations_of_a_plan(rt: HostRuntime) -> Result<(), Fail> {
    let alloc = rt.alloc();
    let all = check_after(alloc, "")?;
    let numbers = "ranks 64/operations 1048420/messages 347634/words 348210/";
    assert!(rt; all.is(alloc, Status::Done, numbers, "")?);
    let error = "gridtool: p.txt: line 2765: too many operations/";
    let sum = check_after(alloc, "SUM w A H -1 0 v 1 1 1 1/")?;
    assert!(rt; sum.is(alloc, Status::Refused, "", error)?);
    let moved = check_after(alloc, "GEMR2D 16 16 a 1 1 b 1 1 w/")?;
    assert!(rt; moved.is(alloc, Status::Refused, "", error)?);
    Ok(())
}
