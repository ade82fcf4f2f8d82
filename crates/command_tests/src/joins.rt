//! The command `join` on files in memory.
use file_tools::Status;
use std::alloc::{AllocError, Global};
use std::test::Fail;
use store_io::{MemSink, MemStore};
use tool_tests::running::{holds, run};

const BANNER: &str = "%%MatrixMarket matrix array integer general\n";

// The bytes of a file behind the banner, where `/` stands for the end of a line.
fn text(alloc: Global, lines: &str) -> Result<String, AllocError> {
    let mut text = String::from_str(alloc, BANNER)?;
    for c in lines.chars() {
        text.push(if c == '/' { '\n' } else { c })?;
    }
    Ok(text)
}

// Sets a file behind its banner.
fn put(alloc: Global, store: &mut MemStore, name: &str, lines: &str) -> Result<bool, AllocError> {
    let text = text(alloc, lines)?;
    Ok(store.put(name, text.as_bytes()))
}

// Whether the store holds such a file.
fn has(alloc: Global, store: &MemStore, name: &str, lines: &str) -> Result<bool, AllocError> {
    let text = text(alloc, lines)?;
    Ok(holds(store, name, text.as_bytes()))
}

#[test]
fn a_split_is_undone(rt: HostRuntime) -> Result<(), Fail> {
    let alloc = rt.alloc();
    let cases = [
        ("split m x 1 1 2 2", "3 2/1/2/3/4/5/6/"),
        ("split m x 2 1 2 1", "3 2/1/2/3/4/5/6/"),
        ("split m x 3 4 1 1", "3 2/1/2/3/4/5/6/"),
        ("split m x 2 2 2 2", "0 5/"),
        ("split m x 2 2 2 2", "5 0/"),
        (
            "split m x 8 8 1 3",
            "2 3/-2147483648/2147483647/0/-1/10/100/",
        ),
    ];
    for (line, lines) in cases {
        let mut store = MemStore::new(alloc, 16384, 80)?;
        let mut err = MemSink::new(alloc, 256)?;
        assert!(rt; put(alloc, &mut store, "m", lines)?);
        assert_eq!(rt;
            run(alloc, &mut store, &mut err, line)?,
            Status::Done,
            "{line}"
        );
        assert_eq!(rt;
            run(alloc, &mut store, &mut err, "join x n")?,
            Status::Done,
            "{line}"
        );
        assert!(rt; has(alloc, &store, "n", lines)?, "{line}");
        assert!(rt; err.bytes().is_empty());
    }
    Ok(())
}

#[test]
fn pieces_of_other_spreads(rt: HostRuntime) -> Result<(), Fail> {
    let alloc = rt.alloc();
    let cases = [
        // the padding is no element
        (
            "%DESC 1 1 0 0 2 2 2 2 0 0 5/5 2/1/2/7/7/7/11/12/7/7/7/",
            "",
            "2 2/1/2/11/12/",
        ),
        // the first block lies in the second process row, and the leading dimensions differ
        (
            "%DESC 2 1 0 0 4 1 1 1 1 0 3/3 1/20/40/9/",
            "%DESC 2 1 1 0 4 1 1 1 1 0 2/2 1/10/30/",
            "4 1/10/20/30/40/",
        ),
        // a process without rows has a row of padding
        (
            "%DESC 2 1 0 0 1 2 2 1 0 0 1/1 2/+5/-06/",
            "% no comment before the head/",
            "",
        ),
        (
            "%DESC 2 1 0 0 1 2 2 1 0 0 1/% note//1 2/+5//-06/",
            "%DESC  2 1 1 0 1 2 2 1 0 0 +1/1 2/0/0/",
            "1 2/5/-6/",
        ),
    ];
    for (first, second, lines) in cases {
        let mut store = MemStore::new(alloc, 4096, 8)?;
        let mut err = MemSink::new(alloc, 256)?;
        assert!(rt; put(alloc, &mut store, "p.0.0", first)?);
        assert!(rt; put(alloc, &mut store, "p.1.0", second)?);
        let status = run(alloc, &mut store, &mut err, "join p m")?;
        if lines.is_empty() {
            assert_eq!(rt; status, Status::Refused);
            assert_eq!(rt; store.file("m"), None);
        } else {
            assert_eq!(rt; status, Status::Done, "{first}");
            assert!(rt; has(alloc, &store, "m", lines)?, "{first}");
        }
    }
    Ok(())
}

#[test]
fn faults_of_pieces(rt: HostRuntime) -> Result<(), Fail> {
    let alloc = rt.alloc();
    let good = "%DESC 2 1 0 0 3 2 2 1 0 0 2/2 2/1/2/4/5/";
    let cases = [
        (
            good,
            "%DESC 2 1 1 0 3 2 2 1 0/",
            "p.1.0: line 2: bad DESC line",
        ),
        (
            "%DESC 2 1 2 0 3 2 2 1 0 0 2/",
            "",
            "p.0.0: line 2: bad DESC line",
        ),
        ("", "", "p.0.0: line 2: bad DESC line"),
        (
            good,
            "%DESC 2 1 1 0 3 3 2 1 0 0 1/",
            "p.1.0: line 2: disagrees with the first piece",
        ),
        ("%DESC 2 1 0 0 3 2 2 1 0 0 1/", "", "p.0.0: line 2: INFO -9"),
        ("%DESC 2 1 0 0 3 2 0 1 0 0 2/", "", "p.0.0: line 2: INFO -4"),
        (
            "%DESC 2 1 1 0 3 2 2 1 0 0 2/",
            "",
            "p.0.0: line 2: wrong place",
        ),
        (
            good,
            "%DESC 2 1 1 0 3 2 2 1 0 0 1/2 2/",
            "p.1.0: line 3: size is 2 2, want 1 2",
        ),
        (
            good,
            "%DESC 2 1 1 0 3 2 2 1 0 0 1//1 2/3/six/",
            "p.1.0: line 6: bad value",
        ),
        (
            good,
            "%DESC 2 1 1 0 3 2 2 1 0 0 1/1 2/3/",
            "p.1.0: line 5: too few values, have 1 want 2",
        ),
        (
            good,
            "%DESC 2 1 1 0 3 2 2 1 0 0 1/1 2/3/4/5/",
            "p.1.0: line 6: too many values, want 2",
        ),
    ];
    for (first, second, fault) in cases {
        let mut store = MemStore::new(alloc, 4096, 8)?;
        let mut err = MemSink::new(alloc, 256)?;
        assert!(rt; put(alloc, &mut store, "p.0.0", first)?);
        assert!(rt; put(alloc, &mut store, "p.1.0", second)?);
        let line = format!(in alloc; "gridtool: {fault}\n")?;
        assert_eq!(rt;
            run(alloc, &mut store, &mut err, "join p m")?,
            Status::Refused,
            "{fault}"
        );
        assert_eq!(rt; err.bytes(), line.as_bytes());
        assert_eq!(rt; store.file("m"), None);
    }
    Ok(())
}

#[test]
fn a_missing_piece(rt: HostRuntime) -> Result<(), Fail> {
    let alloc = rt.alloc();
    let mut store = MemStore::new(alloc, 4096, 8)?;
    let mut err = MemSink::new(alloc, 256)?;
    assert_eq!(rt;
        run(alloc, &mut store, &mut err, "join nope o")?,
        Status::Store
    );
    assert!(rt;
        put(
            alloc,
            &mut store,
            "nope.0.0",
            "%DESC 1 2 0 0 1 2 1 1 0 0 1/1 1/5/"
        )?
    );
    let status = run(alloc, &mut store, &mut err, "join nope o")?;
    assert_eq!(rt; status.code(), 3);
    assert_eq!(rt;
        err.bytes(),
        b"gridtool: nope.0.0: missing\ngridtool: nope.0.1: missing\n".as_slice()
    );
    assert_eq!(rt; store.file("o"), None);
    Ok(())
}

#[test]
fn an_output_without_room(rt: HostRuntime) -> Result<(), Fail> {
    let alloc = rt.alloc();
    let mut store = MemStore::new(alloc, 130, 4)?;
    let mut err = MemSink::new(alloc, 256)?;
    assert!(rt;
        put(
            alloc,
            &mut store,
            "p.0.0",
            "%DESC 1 1 0 0 1 1 1 1 0 0 1/1 1/5/"
        )?
    );
    let status = run(alloc, &mut store, &mut err, "join p m")?;
    assert_eq!(rt; status, Status::Store);
    assert_eq!(rt; err.bytes(), b"gridtool: m: store fault\n".as_slice());
    Ok(())
}
