//! Stores and sinks: each call of the memory forms, and the files and streams of the system once.
use std::fs;
use std::io::{self, ErrorKind, Write};
use std::process::Abort;
use std::test::Fail;
use store_io::{
    CallKind, DirStore, MemSink, MemStore, Sink, SinkErr, StdSink, Store, StoreErr, sink_all,
    store_all,
};

#[test]
fn puts_until_room_or_entries_run_out(rt: HostRuntime) -> Result<(), Fail> {
    let mut store = MemStore::new(rt.alloc(), 12, 4)?;
    let puts = [
        ("a", "12", true),
        ("a", "345", true),
        ("bc", "6789", false),
        ("b", "6789", true),
        ("", "", true),
        ("", "", false),
    ];
    for (name, bytes, fits) in puts {
        assert_eq!(rt; store.put(name, bytes.as_bytes()), fits, "{name} {bytes}");
    }
    let held = [
        ("a", Some("345")),
        ("b", Some("6789")),
        ("", Some("")),
        ("bc", None),
    ];
    for (name, bytes) in held {
        assert_eq!(rt;
            store.file(name),
            bytes.map(|b: &str| b.as_bytes()),
            "{name}"
        );
    }
    assert_eq!(rt; (store.faults(), store.misses()), (0, 0));
    Ok(())
}

// The store holds a file with these contents.
fn holds(rt: &impl Abort, store: &MemStore, name: &str, want: &str) {
    match store.file(name) {
        Some(bytes) => assert_eq!(rt; bytes, want.as_bytes()),
        None => panic!(rt; "{name} isn't held"),
    }
}

// One read of so many bytes has to give these.
fn reads(rt: &impl Abort, store: &mut MemStore, size: usize, want: &[u8]) {
    let mut room = [0u8; 8];
    let size = size.min(8);
    match store.read(&mut room[..size]) {
        Ok(count) if count <= 8 => assert_eq!(rt; &room[..count], want),
        _ => panic!(rt; "a read failed"),
    }
}

#[test]
fn reads_a_file_piece_by_piece(rt: HostRuntime) -> Result<(), Fail> {
    let mut store = MemStore::new(rt.alloc(), 16, 2)?;
    assert!(rt; store.put("a", b"hello"));
    reads(&rt, &mut store, 4, b"");
    assert_eq!(rt; store.open_read("nope"), Err(StoreErr::Missing));
    assert_eq!(rt; (store.faults(), store.misses()), (0, 1));
    store.open_read("a")?;
    let pieces: [(usize, &[u8]); 4] = [(2, b"he"), (0, b""), (8, b"llo"), (8, b"")];
    for (size, want) in pieces {
        reads(&rt, &mut store, size, want);
    }
    store.open_read("a")?;
    assert!(rt; store.put("a", b"other"));
    reads(&rt, &mut store, 8, b"hello");
    store.open_read("a")?;
    reads(&rt, &mut store, 3, b"oth");
    store.close()?;
    reads(&rt, &mut store, 8, b"");
    assert_eq!(rt; (store.faults(), store.misses()), (0, 1));
    Ok(())
}

#[test]
fn writes_whole_pieces_or_nothing(rt: HostRuntime) -> Result<(), Fail> {
    let mut store = MemStore::new(rt.alloc(), 10, 3)?;
    store.open_write("out")?;
    assert_eq!(rt; store.write(b"abc"), Ok(3));
    assert!(rt; store.put("x", b"12"));
    assert_eq!(rt; store.write(b"de"), Err(StoreErr::Failed));
    assert_eq!(rt; store.write(b"d"), Ok(1));
    assert_eq!(rt; store.write(b"e"), Err(StoreErr::Failed));
    assert_eq!(rt; store.write(b""), Ok(0));
    assert_eq!(rt; store.faults(), 2);
    assert_eq!(rt; store.open_write("out"), Err(StoreErr::Failed));
    assert_eq!(rt; store.faults(), 3);
    holds(&rt, &store, "out", "abcd");
    holds(&rt, &store, "x", "12");
    store.close()?;
    Ok(())
}

#[test]
fn reads_that_are_to_fail(rt: HostRuntime) -> Result<(), Fail> {
    let mut store = MemStore::new(rt.alloc(), 64, 2)?;
    assert!(rt; store.put("a", b"hello"));
    assert!(rt; store.put("b", b"other"));
    assert!(rt; store.fail(CallKind::OpenRead, "a", 2));
    assert!(rt; store.fail(CallKind::Read, "a", 2));
    store.open_read("a")?;
    assert_eq!(rt; store.open_read("a"), Err(StoreErr::Failed));
    reads(&rt, &mut store, 8, b"");
    assert_eq!(rt; store.open_read("nope"), Err(StoreErr::Missing));
    store.open_read("b")?;
    reads(&rt, &mut store, 2, b"ot");
    store.open_read("a")?;
    reads(&rt, &mut store, 2, b"he");
    let mut room = [0u8; 8];
    assert_eq!(rt; store.read(&mut room), Err(StoreErr::Failed));
    reads(&rt, &mut store, 8, b"llo");
    assert_eq!(rt; (store.faults(), store.misses()), (2, 1));
    Ok(())
}

#[test]
fn writes_that_are_to_fail(rt: HostRuntime) -> Result<(), Fail> {
    let mut store = MemStore::new(rt.alloc(), 64, 4)?;
    assert!(rt; store.fail(CallKind::OpenWrite, "o", 1));
    assert!(rt; store.fail(CallKind::Write, "o", 2));
    assert_eq!(rt; store.open_write("o"), Err(StoreErr::Failed));
    assert_eq!(rt; store.file("o"), None);
    store.open_write("o")?;
    assert_eq!(rt; store.write(b"ab"), Ok(2));
    assert_eq!(rt; store.write(b"cd"), Err(StoreErr::Failed));
    assert_eq!(rt; store.write(b"ef"), Ok(2));
    holds(&rt, &store, "o", "abef");
    assert_eq!(rt; store.faults(), 2);
    Ok(())
}

// A close that fails gives up input and output all the same. Where both are open it counts for the output.
#[test]
fn closes_that_are_to_fail(rt: HostRuntime) -> Result<(), Fail> {
    let mut store = MemStore::new(rt.alloc(), 64, 4)?;
    assert!(rt; store.put("a", b"hello"));
    assert!(rt; store.fail(CallKind::Close, "a", 1));
    assert!(rt; store.fail(CallKind::Close, "o", 2));
    store.close()?;
    let closes = [Ok(()), Err(StoreErr::Failed), Ok(())];
    for want in closes {
        store.open_read("a")?;
        store.open_write("o")?;
        store_all(&mut store, b"abc")?;
        assert_eq!(rt; store.close(), want);
        reads(&rt, &mut store, 8, b"");
        holds(&rt, &store, "o", "abc");
    }
    store.open_read("a")?;
    assert_eq!(rt; store.close(), Err(StoreErr::Failed));
    assert_eq!(rt; store.faults(), 2);
    Ok(())
}

#[test]
fn as_many_calls_to_fail_as_fit(rt: HostRuntime) -> Result<(), Fail> {
    let mut store = MemStore::new(rt.alloc(), 70, 1)?;
    for nth in 0..64 {
        assert!(rt; store.fail(CallKind::Read, "a", nth));
    }
    assert!(rt; !store.fail(CallKind::Read, "a", 1));
    let mut small = MemStore::new(rt.alloc(), 3, 1)?;
    assert!(rt; !small.fail(CallKind::Read, "abcd", 1));
    assert!(rt; small.fail(CallKind::Read, "abc", 1));
    assert!(rt; !small.put("x", b""));
    assert_eq!(rt; (store.faults(), small.faults()), (0, 0));
    Ok(())
}

#[test]
fn an_output_that_is_opened_again_or_put(rt: HostRuntime) -> Result<(), Fail> {
    let mut store = MemStore::new(rt.alloc(), 40, 5)?;
    store.open_write("o")?;
    store_all(&mut store, b"old")?;
    store.open_write("o")?;
    holds(&rt, &store, "o", "");
    store_all(&mut store, b"ab")?;
    assert!(rt; store.put("o", b"xyz"));
    assert!(rt; store.put("p", b"other"));
    store_all(&mut store, b"!")?;
    holds(&rt, &store, "o", "xyz!");
    holds(&rt, &store, "p", "other");
    assert_eq!(rt; store.faults(), 0);
    Ok(())
}

#[test]
fn all_or_what_was_taken(rt: HostRuntime) -> Result<(), Fail> {
    let mut store = MemStore::new(rt.alloc(), 4, 1)?;
    store.open_write("o")?;
    assert_eq!(rt; store_all(&mut store, b"abcde"), Err(StoreErr::Failed));
    holds(&rt, &store, "o", "");
    store_all(&mut store, b"abc")?;
    holds(&rt, &store, "o", "abc");
    let mut sink = MemSink::new(rt.alloc(), 3)?;
    assert_eq!(rt; sink_all(&mut sink, b"ab"), Ok(()));
    assert_eq!(rt; sink_all(&mut sink, b"cd"), Err(SinkErr::Failed));
    assert_eq!(rt; sink.bytes(), b"abc".as_slice());
    Ok(())
}

#[test]
fn a_sink_of_fixed_room(rt: HostRuntime) -> Result<(), Fail> {
    let mut sink = MemSink::new(rt.alloc(), 4)?;
    let writes = [
        ("ab", Ok(2)),
        ("", Ok(0)),
        ("cde", Ok(2)),
        ("f", Err(SinkErr::Failed)),
        ("", Ok(0)),
    ];
    for (piece, want) in writes {
        assert_eq!(rt; sink.write(piece.as_bytes()), want, "{piece}");
    }
    assert_eq!(rt; sink.bytes(), b"abcd".as_slice());
    assert_eq!(rt; sink.faults(), 1);
    Ok(())
}

#[test]
fn a_sink_whose_write_is_to_fail(rt: HostRuntime) -> Result<(), Fail> {
    let mut sink = MemSink::new(rt.alloc(), 8)?;
    sink.fail(1);
    sink.fail(2);
    let writes = [
        ("ab", Ok(2)),
        ("cd", Err(SinkErr::Failed)),
        ("ef", Ok(2)),
        ("", Ok(0)),
    ];
    for (piece, want) in writes {
        assert_eq!(rt; sink.write(piece.as_bytes()), want, "{piece}");
    }
    assert_eq!(rt; sink.bytes(), b"abef".as_slice());
    assert_eq!(rt; sink.faults(), 1);
    Ok(())
}

#[test]
fn files_of_the_system(rt: HostRuntime) -> Result<(), Fail> {
    let mut store = DirStore::new(&rt);
    let mut room = [0u8; 8];
    assert_eq!(rt; store.read(&mut room), Ok(0));
    store.open_write("stores_test.txt")?;
    store_all(&mut store, b"hello")?;
    store.close()?;
    store.open_read("stores_test.txt")?;
    assert_eq!(rt; store.read(&mut room), Ok(5));
    assert_eq!(rt; &room[..5], b"hello".as_slice());
    assert_eq!(rt; store.read(&mut room), Ok(0));
    let refused = [
        ("stores_test_none.txt", StoreErr::Missing),
        ("stores_test_none/a", StoreErr::Missing),
        ("stores_test.txt/a", StoreErr::Failed),
    ];
    for (name, want) in refused {
        assert_eq!(rt; store.open_read(name), Err(want), "{name}");
    }
    for name in ["stores_test_none/a", "stores_test.txt/a", "."] {
        assert_eq!(rt; store.open_write(name), Err(StoreErr::Failed), "{name}");
    }
    fs::remove_file(&rt, "stores_test.txt")?;
    Ok(())
}

// A writer that takes two bytes a call until its room is full, then takes nothing once, and then fails.
#[derive(Drop)]
struct Narrow {
    room: usize,
    stalled: bool,
}

impl Write for Narrow {
    fn write(&mut self, bytes: &[u8]) -> io::Result<usize> {
        if self.room == 0 && self.stalled {
            return Err(io::Error::from(ErrorKind::Other));
        }
        self.stalled = self.room == 0;
        let count = bytes.len().min(self.room).min(2);
        self.room -= count;
        Ok(count)
    }

    fn flush(&mut self) -> io::Result<()> {
        Ok(())
    }
}

#[test]
fn a_writer_of_the_library(rt: HostRuntime) -> Result<(), Fail> {
    let mut sink = StdSink::new(Narrow {
        room: 5,
        stalled: false,
    });
    assert_eq!(rt; sink_all(&mut sink, b"abcd"), Ok(()));
    assert_eq!(rt; sink.write(b"efg"), Ok(1));
    assert_eq!(rt; sink.write(b""), Ok(0));
    assert_eq!(rt; sink.write(b"f"), Err(SinkErr::Failed));
    assert_eq!(rt; sink.write(b"f"), Err(SinkErr::Failed));
    Ok(())
}
