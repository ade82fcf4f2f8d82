//! The tool on stores and streams without room.
use file_tools::{Status, no_memory, plain_tool};
use std::alloc::{AllocError, Global};
use std::test::Fail;
use store_io::{MemSink, MemStore};
use tool_tests::running::{holds, run, words};

const A: &[u8; 60] = b"%%MatrixMarket matrix array integer general\n3 2\n1\n2\n3\n4\n5\n6\n";

const ROW_0: &[u8; 80] =
    b"%%MatrixMarket matrix array integer general\n%DESC 3 1 0 0 3 2 1 1 0 0 1\n1 2\n1\n4\n";

const ROW_1: &[u8; 80] =
    b"%%MatrixMarket matrix array integer general\n%DESC 3 1 1 0 3 2 1 1 0 0 1\n1 2\n2\n5\n";

const ROW_2: &[u8; 80] =
    b"%%MatrixMarket matrix array integer general\n%DESC 3 1 2 0 3 2 1 1 0 0 1\n1 2\n3\n6\n";

// Whether a file has these old contents, or a front of this text.
fn is_old_or_front(store: &MemStore, name: &str, old: Option<&[u8]>, text: &[u8]) -> bool {
    match store.file(name) {
        Some(held) => old == Some(held) || text.starts_with(held),
        None => old.is_none(),
    }
}

// A split of A over three rows of processes that fails at piece `failing`, in a store that holds an older last piece.
fn fails_at(
    alloc: Global,
    failing: usize,
    room: usize,
    entries: usize,
) -> Result<bool, AllocError> {
    let mut store = MemStore::new(alloc, room, entries)?;
    let mut err = MemSink::new(alloc, 256)?;
    let laid = store.put("a.mtx", A) && store.put("y.2.0", b"older");
    let status = run(alloc, &mut store, &mut err, "split a.mtx y 3 1 1 1")?;
    let mut good = laid && status == Status::Store && holds(&store, "a.mtx", A);
    let rows = [
        ("y.0.0", ROW_0, None),
        ("y.1.0", ROW_1, None),
        ("y.2.0", ROW_2, Some(b"older".as_slice())),
    ];
    for (k, (name, text, old)) in rows.into_iter().enumerate() {
        if k < failing {
            good = good && holds(&store, name, text);
        } else if k > failing {
            good = good && store.file(name) == old;
        } else {
            let line = format!(in alloc; "gridtool: {name}: store fault\n")?;
            good = good && is_old_or_front(&store, name, old, text);
            good = good && err.bytes() == line.as_bytes();
        }
    }
    Ok(good)
}

#[test]
fn a_store_that_fails_at_each_save(rt: HostRuntime) -> Result<(), Fail> {
    let alloc = rt.alloc();
    // A and the older piece take 75 bytes and two entries, and each piece 85 bytes and one entry
    let cases = [
        (0, 4096, 2),
        (1, 4096, 3),
        (2, 4096, 4),
        (0, 75 + 3, 8),
        (0, 75 + 5, 8),
        (0, 75 + 84, 8),
        (1, 75 + 85 + 40, 8),
        (2, 75 + 170 + 40, 8),
        (2, 75 + 254, 8),
    ];
    for (failing, room, entries) in cases {
        assert!(rt;
            fails_at(alloc, failing, room, entries)?,
            "{failing} {room} {entries}"
        );
    }
    Ok(())
}

#[test]
fn a_joined_file_without_room(rt: HostRuntime) -> Result<(), Fail> {
    let alloc = rt.alloc();
    // the pieces take 255 bytes and three entries, and the older output 7 bytes and one entry
    for (room, entries) in [(262, 5), (262 + 1 + 59, 5), (262 + 20, 5), (4096, 4)] {
        let mut store = MemStore::new(alloc, room, entries)?;
        let mut err = MemSink::new(alloc, 256)?;
        assert!(rt; store.put("y.0.0", ROW_0) && store.put("y.1.0", ROW_1));
        assert!(rt; store.put("y.2.0", ROW_2) && store.put("m", b"before"));
        assert_eq!(rt;
            run(alloc, &mut store, &mut err, "join y m")?,
            Status::Store
        );
        assert!(rt; is_old_or_front(&store, "m", Some(b"before".as_slice()), A));
        assert!(rt; holds(&store, "y.0.0", ROW_0) && holds(&store, "y.2.0", ROW_2));
        assert_eq!(rt; err.bytes(), b"gridtool: m: store fault\n".as_slice());
    }
    Ok(())
}

#[test]
fn an_output_named_as_an_input(rt: HostRuntime) -> Result<(), Fail> {
    let alloc = rt.alloc();
    let mut store = MemStore::new(alloc, 4096, 16)?;
    let mut err = MemSink::new(alloc, 256)?;
    assert!(rt; store.put("y.1.0", A));
    // all is read before the first piece is written
    assert_eq!(rt;
        run(alloc, &mut store, &mut err, "split y.1.0 y 3 1 1 1")?,
        Status::Done
    );
    assert!(rt; holds(&store, "y.0.0", ROW_0));
    assert!(rt; holds(&store, "y.1.0", ROW_1));
    assert!(rt; holds(&store, "y.2.0", ROW_2));
    assert_eq!(rt;
        run(alloc, &mut store, &mut err, "join y y.0.0")?,
        Status::Done
    );
    assert!(rt; holds(&store, "y.0.0", A));
    assert!(rt; holds(&store, "y.2.0", ROW_2));
    assert!(rt; err.bytes().is_empty());
    Ok(())
}

#[test]
fn an_error_stream_without_room(rt: HostRuntime) -> Result<(), Fail> {
    let alloc = rt.alloc();
    let cases = [
        (
            "split a.mtx y 3 1 1 1",
            Status::Store,
            "gridtool: y.1.0: store fault\n",
        ),
        ("split b y 3 1 1 1", Status::Store, "gridtool: b: missing\n"),
        (
            "split y.2.0 y 3 1 1 1",
            Status::Refused,
            "gridtool: y.2.0: line 1: not a Matrix Market file\n",
        ),
        (
            "split y",
            Status::Words,
            "usage: gridtool split IN OUT P Q MB NB\n       gridtool join PREFIX OUT\n       gridtool move PREFIX OUT P Q MB NB [--threads | --seed S]\n       gridtool check PROGRAM\n       gridtool run PROGRAM [--threads | --seed S]\n       gridtool load SEED SIZE\n",
        ),
    ];
    for (line, status, text) in cases {
        for room in [0, 1, 9, 12, 15, 17, 20] {
            let mut store = MemStore::new(alloc, 4096, 3)?;
            let mut out = MemSink::new(alloc, 0)?;
            let mut err = MemSink::new(alloc, room)?;
            assert!(rt; store.put("a.mtx", A) && store.put("y.2.0", b"older"));
            let words = words(alloc, line)?;
            let ended = plain_tool(alloc, &words, &mut store, &mut out, &mut err);
            assert_eq!(rt; ended, status, "{line}");
            assert!(rt; err.bytes().len() <= room && err.faults() > 0);
            assert!(rt; text.as_bytes().starts_with(err.bytes()));
            assert_eq!(rt; out.faults(), 0);
        }
    }
    Ok(())
}

#[test]
fn no_memory_for_the_words(rt: HostRuntime) -> Result<(), Fail> {
    let alloc = rt.alloc();
    let mut err = MemSink::new(alloc, 64)?;
    assert_eq!(rt; no_memory(&mut err).code(), 4);
    assert_eq!(rt; err.bytes(), b"gridtool: out of memory\n".as_slice());
    Ok(())
}
