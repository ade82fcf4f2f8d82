//! The files of LOAD lines: one of another size, a bad one, one that is missing.
use crate::running::{bad_file, bad_line, plan_error, small_store};
use grid_exec::ExecFault;
use mm_text::{LoadErr, MmErr, MmFault};
use std::test::Fail;

const LOADS: &str = "RANKS 1
GRID g R 1 1
ARRAY a g 2 1 1 1 0 0
LOAD a m.mtx
BCAST g R7 H 0 0 a 1 1 1 1
";

const ROW: &str = "%%MatrixMarket matrix array integer general
1 2
3
4
";

const SHORT: &str = "%%MatrixMarket matrix array integer general
2 1
3
";

#[test]
fn a_file_is_missing(rt: HostRuntime) -> Result<(), Fail> {
    let alloc = rt.alloc();
    if let Some(mut store) = small_store(alloc) {
        let error = plan_error(alloc, LOADS, &mut store);
        assert_eq!(rt; bad_file(error), Some(LoadErr::Missing));
    }
    Ok(())
}

#[test]
fn a_file_of_another_size(rt: HostRuntime) -> Result<(), Fail> {
    let alloc = rt.alloc();
    if let Some(mut store) = small_store(alloc) {
        let put = store.put("m.mtx", ROW.as_bytes());
        assert!(rt; put);
        let error = plan_error(alloc, LOADS, &mut store);
        assert_eq!(rt; bad_line(error), Some((4, ExecFault::Size(1, 2, 2, 1))));
    }
    Ok(())
}

#[test]
fn a_file_that_is_too_short(rt: HostRuntime) -> Result<(), Fail> {
    let alloc = rt.alloc();
    if let Some(mut store) = small_store(alloc) {
        let put = store.put("m.mtx", SHORT.as_bytes());
        assert!(rt; put);
        let error = plan_error(alloc, LOADS, &mut store);
        let few = MmErr {
            line: 4,
            what: MmFault::TooFew(1, 2),
        };
        assert_eq!(rt; bad_file(error), Some(LoadErr::Mm(few)));
    }
    Ok(())
}
