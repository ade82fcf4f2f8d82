//! The commands on files in memory.
use crate::running::{holds, run};
use file_tools::Status;
use std::test::Fail;
use store_io::{MemSink, MemStore};

const A: &[u8; 60] = b"%%MatrixMarket matrix array integer general\n3 2\n1\n2\n3\n4\n5\n6\n";

const FIRST: &[u8; 84] =
    b"%%MatrixMarket matrix array integer general\n%DESC 2 1 0 0 3 2 2 1 0 0 2\n2 2\n1\n2\n4\n5\n";

const SECOND: &[u8; 80] =
    b"%%MatrixMarket matrix array integer general\n%DESC 2 1 1 0 3 2 2 1 0 0 1\n1 2\n3\n6\n";

#[test]
fn a_matrix_over_two_rows_of_processes(rt: HostRuntime) -> Result<(), Fail> {
    let alloc = rt.alloc();
    let mut store = MemStore::new(alloc, 4096, 8)?;
    let mut err = MemSink::new(alloc, 256)?;
    assert!(rt; store.put("a.mtx", A));
    let status = run(alloc, &mut store, &mut err, "split a.mtx y 2 1 2 1")?;
    assert_eq!(rt; status, Status::Done);
    assert_eq!(rt; status.code(), 0);
    assert!(rt; holds(&store, "y.0.0", FIRST));
    assert!(rt; holds(&store, "y.1.0", SECOND));
    assert!(rt; err.bytes().is_empty());
    Ok(())
}

#[test]
fn a_matrix_on_one_process(rt: HostRuntime) -> Result<(), Fail> {
    let alloc = rt.alloc();
    let mut store = MemStore::new(alloc, 4096, 8)?;
    let mut err = MemSink::new(alloc, 256)?;
    assert!(rt; store.put("a.mtx", A));
    assert_eq!(rt;
        run(alloc, &mut store, &mut err, "split a.mtx x 1 1 2 2")?,
        Status::Done
    );
    let piece =
        b"%%MatrixMarket matrix array integer general\n%DESC 1 1 0 0 3 2 2 2 0 0 3\n3 2\n1\n2\n3\n4\n5\n6\n";
    assert_eq!(rt; store.file("x.0.0"), Some(piece.as_slice()));
    Ok(())
}

#[test]
fn a_matrix_without_rows(rt: HostRuntime) -> Result<(), Fail> {
    let alloc = rt.alloc();
    let mut store = MemStore::new(alloc, 4096, 8)?;
    let mut err = MemSink::new(alloc, 256)?;
    assert!(rt; store.put("e", b"%%MatrixMarket matrix array integer general\n0 5\n"));
    assert_eq!(rt;
        run(alloc, &mut store, &mut err, "split e z 2 2 2 2")?,
        Status::Done
    );
    let piece =
        b"%%MatrixMarket matrix array integer general\n%DESC 2 2 1 0 0 5 2 2 0 0 1\n1 3\n0\n0\n0\n";
    let narrow =
        b"%%MatrixMarket matrix array integer general\n%DESC 2 2 0 1 0 5 2 2 0 0 1\n1 2\n0\n0\n";
    assert_eq!(rt; store.file("z.1.0"), Some(piece.as_slice()));
    assert_eq!(rt; store.file("z.0.1"), Some(narrow.as_slice()));
    Ok(())
}

#[test]
fn refusals(rt: HostRuntime) -> Result<(), Fail> {
    let alloc = rt.alloc();
    let usage =
        "usage: gridtool split IN OUT P Q MB NB\n       gridtool join PREFIX OUT\n       gridtool move PREFIX OUT P Q MB NB [--threads | --seed S]\n       gridtool check PROGRAM\n       gridtool run PROGRAM [--threads | --seed S]\n       gridtool load SEED SIZE\n";
    let cases = [
        (
            "split b.mtx x 1 1 2 2",
            1,
            "gridtool: b.mtx: line 4: bad value\n",
        ),
        (
            "split e.mtx x 64 1 1 1",
            1,
            "gridtool: too many words: 1090519040\n",
        ),
        ("split nope x 1 1 1 1", 3, "gridtool: nope: missing\n"),
        ("split a.mtx x 8 9 1 1", 2, usage),
        ("split a.mtx x 1 1 2", 2, usage),
        ("Split a.mtx x 1 1 2 2", 2, usage),
        ("split --help", 2, usage),
        ("move x y 1 1 1 1", 3, "gridtool: x.0.0: missing\n"),
        ("run x", 3, "gridtool: x: missing\n"),
        ("load 1 0", 2, usage),
        ("load 1 2001", 2, usage),
        ("load 18446744073709551616 1", 2, usage),
        ("load 1 2 --threads", 2, usage),
        ("", 2, usage),
    ];
    for (line, code, text) in cases {
        let mut store = MemStore::new(alloc, 4096, 8)?;
        let mut err = MemSink::new(alloc, 256)?;
        assert!(rt; store.put("a.mtx", A));
        assert!(rt;
            store.put(
                "b.mtx",
                b"%%MatrixMarket matrix array integer general\n3 2\n1\n2.5\n3\n4\n5\n6\n"
            )
        );
        assert!(rt;
            store.put(
                "e.mtx",
                b"%%MatrixMarket matrix array integer general\n0 16777216\n"
            )
        );
        let status = run(alloc, &mut store, &mut err, line)?;
        assert_eq!(rt; status.code(), code, "{line}");
        assert_eq!(rt; err.bytes(), text.as_bytes());
        assert_eq!(rt; store.file("x.0.0"), None);
    }
    Ok(())
}

#[test]
fn faults_of_matrix_files(rt: HostRuntime) -> Result<(), Fail> {
    let alloc = rt.alloc();
    let general = "%%MatrixMarket matrix array integer general\n";
    let cases = [
        ("", "", "line 1: not a Matrix Market file"),
        ("\u{1f}", "", "line 1: byte that is not text"),
        (
            "%%MatrixMarket matrix coordinate integer general\n",
            "",
            "line 1: not an array of integers",
        ),
        (
            "%%MatrixMarket matrix array integer hermitian\n",
            "",
            "line 1: unknown symmetry",
        ),
        (general, "16777216 5\n", "line 2: bad size line"),
        (general, "3 2\n2147483648\n", "line 3: value out of range"),
        (general, "1 1\n1 2\n", "line 3: bad value"),
        (
            general,
            "3 2\n1\n2\n3\n4\n5\n",
            "line 8: too few values, have 5 want 6",
        ),
        (
            general,
            "3 2\n1\n2\n3\n4\n5\n6\n7\n",
            "line 9: too many values, want 6",
        ),
        (
            general,
            "16777216 4\n",
            "line 3: too few values, have 0 want 67108864",
        ),
    ];
    for (head, body, fault) in cases {
        let mut store = MemStore::new(alloc, 4096, 8)?;
        let mut err = MemSink::new(alloc, 256)?;
        let text = format!(in alloc; "{head}{body}")?;
        assert!(rt; store.put("f", text.as_bytes()));
        let line = format!(in alloc; "gridtool: f: {fault}\n")?;
        assert_eq!(rt;
            run(alloc, &mut store, &mut err, "split f x 1 1 2 2")?,
            Status::Refused,
            "{fault}"
        );
        assert_eq!(rt; err.bytes(), line.as_bytes());
        assert_eq!(rt; store.file("x.0.0"), None);
    }
    Ok(())
}

#[test]
fn numbers_of_twenty_digits(rt: HostRuntime) -> Result<(), Fail> {
    let alloc = rt.alloc();
    let mut store = MemStore::new(alloc, 4096, 8)?;
    let mut err = MemSink::new(alloc, 256)?;
    assert!(rt; store.put("-", A));
    assert_eq!(rt;
        run(
            alloc,
            &mut store,
            &mut err,
            "split - - 1 1 00000000000000000002 2"
        )?,
        Status::Done
    );
    assert!(rt; store.file("-.0.0").is_some());
    Ok(())
}

#[test]
fn a_store_without_room(rt: HostRuntime) -> Result<(), Fail> {
    let alloc = rt.alloc();
    let mut store = MemStore::new(alloc, 150, 8)?;
    let mut err = MemSink::new(alloc, 256)?;
    assert!(rt; store.put("a.mtx", A));
    let status = run(alloc, &mut store, &mut err, "split a.mtx y 2 1 2 1")?;
    assert_eq!(rt; status, Status::Store);
    assert_eq!(rt; status.code(), 3);
    assert_eq!(rt; err.bytes(), b"gridtool: y.0.0: store fault\n".as_slice());
    Ok(())
}
