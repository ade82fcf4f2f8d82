//! Files longer than the window, and calls that fail, one after the other.
use mm_text::{LoadErr, MmErr, MmFault, read_matrix};
use piece_file::{PieceErr, read_piece, write_piece};
use std::alloc::Global;
use std::process::Abort;
use std::test::Fail;
use store_io::{CallKind, MemStore};

const BANNER: &str = "%%MatrixMarket matrix array integer general\n";

const PIECE: &str = "%DESC 2 1 1 0 3 2 2 1 0 0 1\n1 2\n3\n6\n";

// 9,000 lines of eight bytes after the size line, so that the window of 64 KiB ends within one of them.
#[test]
fn faults_after_the_first_window(rt: HostRuntime) -> Result<(), Fail> {
    let alloc = rt.alloc();
    let values = "1234567\n".repeat(alloc, 9000)?;
    let values = values.as_str();
    let ends = [
        ("9000 1", "", None),
        ("9001 1", "x\n", Some((9003, MmFault::Value))),
        ("9001 1", "2147483648\n", Some((9003, MmFault::Range))),
        ("9001 1", "", Some((9003, MmFault::TooFew(9000, 9001)))),
        ("8999 1", "", Some((9002, MmFault::TooMany(8999)))),
        ("9000 1", "\n1 2\n", Some((9004, MmFault::TooMany(9000)))),
    ];
    for (size, end, fault) in ends {
        let mut store = MemStore::new(alloc, 80_000, 1)?;
        let text = format!(in alloc; "{BANNER}{size}\n{values}{end}")?;
        assert!(rt; store.put("f", text.as_bytes()));
        match (read_matrix(alloc, &mut store, "f"), fault) {
            (Ok(read), None) => {
                assert_eq!(rt; read.words.len(), 9000);
                assert!(rt; read.words.iter().all(|word| *word == 1_234_567));
            }
            (Err(error), Some((line, what))) => {
                assert_eq!(rt; error, LoadErr::Mm(MmErr { line, what }))
            }
            _ => panic!(rt; "{size} and {end}: another answer"),
        }
    }
    Ok(())
}

// The answer is that the store failed at this file, or that nothing did.
fn fails_at(rt: &impl Abort, error: Option<PieceErr>, file: &str, fails: bool) {
    match error {
        Some(PieceErr::Failed(name)) => assert_eq!(rt; (name.as_str(), true), (file, fails)),
        Some(_) => panic!(rt; "{file}: another answer"),
        None => assert!(rt; !fails),
    }
}

// The piece of a store is written where the nth call of a kind on its file fails, or none does; so much of the file is there then.
fn writes_where_a_call_fails(
    rt: &impl Abort,
    alloc: Global,
    whole: &[u8],
    call: (CallKind, u32, bool),
    left: Option<&[u8]>,
) -> Result<(), Fail> {
    let (kind, nth, fails) = call;
    let mut store = MemStore::new(alloc, 512, 2)?;
    assert!(rt; store.put("y.1.0", whole));
    assert!(rt; store.fail(kind, "w.1.0", nth));
    let piece = read_piece(alloc, &mut store, "y", 1, 0).map_err(|_| "a piece")?;
    let answer = write_piece(&mut store, "w.1.0", &piece.head, &piece.cells);
    assert_eq!(rt; answer.is_err(), fails);
    assert_eq!(rt; store.file("w.1.0"), left);
    assert_eq!(rt; store.faults(), u64::from(fails));
    Ok(())
}

// A small piece is read by one opening and two reads.
#[test]
fn reads_that_fail_one_after_the_other(rt: HostRuntime) -> Result<(), Fail> {
    let alloc = rt.alloc();
    let text = format!(in alloc; "{BANNER}{PIECE}")?;
    let reads = [
        (CallKind::OpenRead, 1, true),
        (CallKind::OpenRead, 2, false),
        (CallKind::Read, 1, true),
        (CallKind::Read, 2, true),
        (CallKind::Read, 3, false),
        (CallKind::Close, 1, false),
    ];
    for (kind, nth, fails) in reads {
        let mut store = MemStore::new(alloc, 256, 1)?;
        assert!(rt; store.put("y.1.0", text.as_bytes()));
        assert!(rt; store.fail(kind, "y.1.0", nth));
        let error = read_piece(alloc, &mut store, "y", 1, 0).err();
        fails_at(&rt, error, "y.1.0", fails);
        assert_eq!(rt; store.faults(), u64::from(fails));
    }
    Ok(())
}

// It is written by one opening, one write and one close.
#[test]
fn writes_that_fail_one_after_the_other(rt: HostRuntime) -> Result<(), Fail> {
    let alloc = rt.alloc();
    let text = format!(in alloc; "{BANNER}{PIECE}")?;
    let whole = text.as_bytes();
    let empty = &whole[..0];
    let writes = [
        ((CallKind::OpenWrite, 1, true), None),
        ((CallKind::OpenWrite, 2, false), Some(whole)),
        ((CallKind::Write, 1, true), Some(empty)),
        ((CallKind::Write, 2, false), Some(whole)),
        ((CallKind::Close, 1, true), Some(whole)),
        ((CallKind::Close, 2, false), Some(whole)),
    ];
    for (call, left) in writes {
        writes_where_a_call_fails(&rt, alloc, whole, call, left)?;
    }
    Ok(())
}
