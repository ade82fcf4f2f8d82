//! Pieces are read, gathered and written.
use descriptor::Info;
use mm_reader::MmFault;
use piece_file::{Piece, PieceErr, PieceFault, gather_pieces, read_piece, write_piece};
use std::alloc::Global;
use std::process::Abort;
use std::test::Fail;
use store_io::MemStore;

const BANNER: &str = "%%MatrixMarket matrix array integer general\n";

// The two pieces of the matrix 1 4 / 2 5 / 3 6 in blocks of 2 by 1 over two processes in a column.
const UPPER: &str = "%DESC 2 1 0 0 3 2 2 1 0 0 2\n2 2\n1\n2\n4\n5\n";

const LOWER: &str = "%DESC 2 1 1 0 3 2 2 1 0 0 1\n1 2\n3\n6\n";

// A file of this name, after the banner of pieces.
fn put(
    rt: &impl Abort,
    alloc: Global,
    store: &mut MemStore,
    name: &str,
    text: &str,
) -> Result<(), Fail> {
    let whole = format!(in alloc; "{BANNER}{text}")?;
    assert!(rt; store.put(name, whole.as_bytes()), "{name} has no room");
    Ok(())
}

// These words stand in the piece by columns.
fn holds(rt: &impl Abort, piece: &Piece, want: &[i32]) {
    let mut place = 0;
    for j in 0..piece.cells.cols() {
        for word in piece.cells.column(j) {
            assert_eq!(rt; want.get(place), Some(word), "at place {place}");
            place = place.saturating_add(1);
        }
    }
    assert_eq!(rt; place, want.len());
}

// The answer is that this file is refused at this line.
fn refuses(rt: &impl Abort, error: Option<PieceErr>, file: &str, line: u32, fault: PieceFault) {
    match error {
        Some(
            PieceErr::Bad {
                name,
                line: at,
                fault: found,
            },
        ) => assert_eq!(rt; (name.as_str(), at, found), (file, line, fault)),
        Some(_) => panic!(rt; "{file}: another answer"),
        None => panic!(rt; "{file} was accepted"),
    }
}

// What line 2 of the one piece of a prefix is, with nothing after it.
#[test]
fn second_lines(rt: HostRuntime) -> Result<(), Fail> {
    let alloc = rt.alloc();
    let form = PieceFault::DescLine;
    // a line that is accepted is followed by the end of the file, where the size line is missing
    let good = PieceFault::Mm(MmFault::Size);
    let rows = [
        ("%DESC 1 1 0 0 3 2 2 1 0 0 3", 3, good),
        ("%DESC +1 01 -0 0 3 2 2 1 0 0 \t 3 ", 3, good),
        ("2 2", 2, form),
        ("", 2, form),
        ("% DESC 1 1 0 0 3 2 2 1 0 0 3", 2, form),
        (" %DESC 1 1 0 0 3 2 2 1 0 0 3", 2, form),
        ("%desc 1 1 0 0 3 2 2 1 0 0 3", 2, form),
        ("%DESC 1 1 0 0 3 2 2 1 0 0", 2, form),
        ("%DESC 1 1 0 0 3 2 2 1 0 0 3 3", 2, form),
        ("%DESC 1 1 0 0 3 2 2 1 0 0 x", 2, form),
        ("%DESC 1 1 0 0 3 2 2 1 0 0 2147483648", 2, form),
        ("%DESC 1 1 0 0 -2147483649 2 2 1 0 0 3", 2, form),
        ("%DESC 0 1 0 0 3 2 2 1 0 0 3", 2, form),
        ("%DESC -1 1 0 0 3 2 2 1 0 0 3", 2, form),
        ("%DESC 64 1 0 0 3 2 2 1 0 0 2", 3, good),
        ("%DESC 65 1 0 0 3 2 2 1 0 0 2", 2, form),
        ("%DESC 1 0 0 0 3 2 2 1 0 0 3", 2, form),
        ("%DESC 1 64 0 0 3 2 2 1 0 0 3", 3, good),
        ("%DESC 1 65 0 0 3 2 2 1 0 0 3", 2, form),
        ("%DESC 8 8 0 0 3 2 2 1 0 0 2", 3, good),
        ("%DESC 8 9 0 0 3 2 2 1 0 0 2", 2, form),
        ("%DESC 1 1 1 0 3 2 2 1 0 0 3", 2, form),
        ("%DESC 1 1 -1 0 3 2 2 1 0 0 3", 2, form),
        ("%DESC 1 1 0 1 3 2 2 1 0 0 3", 2, form),
        ("%DESC 1 1 0 -1 3 2 2 1 0 0 3", 2, form),
        (
            "%DESC 1 1 0 0 -1 2 2 1 0 0 3",
            2,
            PieceFault::DescEntry(Info(-2)),
        ),
        ("%DESC 1 1 0 0 0 2 2 1 0 0 1", 3, good),
        ("%DESC 1 1 0 0 16777216 2 2 1 0 0 16777216", 3, good),
        (
            "%DESC 1 1 0 0 16777217 2 2 1 0 0 3",
            2,
            PieceFault::DescEntry(Info(-2)),
        ),
        (
            "%DESC 1 1 0 0 3 -1 2 1 0 0 3",
            2,
            PieceFault::DescEntry(Info(-3)),
        ),
        ("%DESC 1 1 0 0 3 0 2 1 0 0 3", 3, good),
        ("%DESC 1 1 0 0 3 16777216 2 1 0 0 3", 3, good),
        (
            "%DESC 1 1 0 0 3 16777217 2 1 0 0 3",
            2,
            PieceFault::DescEntry(Info(-3)),
        ),
        (
            "%DESC 1 1 0 0 3 2 0 1 0 0 3",
            2,
            PieceFault::DescEntry(Info(-4)),
        ),
        ("%DESC 1 1 0 0 3 2 16777216 1 0 0 3", 3, good),
        (
            "%DESC 1 1 0 0 3 2 16777217 1 0 0 3",
            2,
            PieceFault::DescEntry(Info(-4)),
        ),
        (
            "%DESC 1 1 0 0 3 2 2 0 0 0 3",
            2,
            PieceFault::DescEntry(Info(-5)),
        ),
        ("%DESC 1 1 0 0 3 2 2 16777216 0 0 3", 3, good),
        (
            "%DESC 1 1 0 0 3 2 2 16777217 0 0 3",
            2,
            PieceFault::DescEntry(Info(-5)),
        ),
        (
            "%DESC 1 1 0 0 3 2 2 1 1 0 3",
            2,
            PieceFault::DescEntry(Info(-6)),
        ),
        (
            "%DESC 1 1 0 0 3 2 2 1 -1 0 3",
            2,
            PieceFault::DescEntry(Info(-6)),
        ),
        ("%DESC 2 1 0 0 3 2 2 1 1 0 1", 3, good),
        (
            "%DESC 1 1 0 0 3 2 2 1 0 1 3",
            2,
            PieceFault::DescEntry(Info(-7)),
        ),
        (
            "%DESC 1 1 0 0 3 2 2 1 0 -1 3",
            2,
            PieceFault::DescEntry(Info(-7)),
        ),
        ("%DESC 1 2 0 0 3 2 2 1 0 1 3", 3, good),
        (
            "%DESC 1 1 0 0 3 2 2 1 0 0 2",
            2,
            PieceFault::DescEntry(Info(-9)),
        ),
        (
            "%DESC 2 1 0 0 3 2 2 1 1 0 0",
            2,
            PieceFault::DescEntry(Info(-9)),
        ),
        ("%DESC 1 1 0 0 3 2 2 1 0 0 16777216", 3, good),
        (
            "%DESC 1 1 0 0 3 2 2 1 0 0 16777217",
            2,
            PieceFault::DescEntry(Info(-9)),
        ),
        (
            "%DESC 1 1 0 0 -1 2 0 1 9 9 0",
            2,
            PieceFault::DescEntry(Info(-2)),
        ),
        ("%DESC 2 1 1 0 3 2 2 1 0 0 1", 2, PieceFault::WrongPlace),
        ("%DESC 1 2 0 1 3 2 2 1 0 0 3", 2, PieceFault::WrongPlace),
        (
            "%DESC 2 1 1 0 3 2 2 1 0 0 0",
            2,
            PieceFault::DescEntry(Info(-9)),
        ),
    ];
    for (text, line, fault) in rows {
        let mut store = MemStore::new(alloc, 256, 2)?;
        put(&rt, alloc, &mut store, "s.0.0", text)?;
        refuses(
            &rt,
            read_piece(alloc, &mut store, "s", 0, 0).err(),
            "s.0.0",
            line,
            fault,
        );
    }
    Ok(())
}

// What the file of the second process is, where that of the first is good.
#[test]
fn second_pieces(rt: HostRuntime) -> Result<(), Fail> {
    let alloc = rt.alloc();
    let rows = [
        // the first piece's
        (UPPER, 2, PieceFault::WrongPlace),
        // of other matrices and grids
        (
            "%DESC 2 1 0 0 3 2 3 1 0 0 2\n2 2\n1\n2\n4\n5\n",
            2,
            PieceFault::Disagree,
        ),
        (
            "%DESC 2 1 1 0 4 2 2 1 0 0 2\n2 2\n1\n2\n4\n5\n",
            2,
            PieceFault::Disagree,
        ),
        (
            "%DESC 2 1 1 0 3 1 2 1 0 0 1\n1 1\n3\n",
            2,
            PieceFault::Disagree,
        ),
        (
            "%DESC 2 1 1 0 3 2 2 2 0 0 1\n1 2\n3\n6\n",
            2,
            PieceFault::Disagree,
        ),
        (
            "%DESC 2 1 1 0 3 2 2 1 1 0 2\n2 2\n1\n2\n4\n5\n",
            2,
            PieceFault::Disagree,
        ),
        (
            "%DESC 2 2 1 0 3 2 2 1 0 0 1\n1 1\n3\n",
            2,
            PieceFault::Disagree,
        ),
        (
            "%DESC 4 1 1 0 3 2 2 1 0 0 1\n1 2\n3\n6\n",
            2,
            PieceFault::Disagree,
        ),
        ("%DESC 2 1 1 0 -1 2 2 1 0 0 1\n", 2, PieceFault::Disagree),
        (
            "%DESC 2 1 1 0 3 2 2 1 0 0 0\n",
            2,
            PieceFault::DescEntry(Info(-9)),
        ),
        // sizes
        (
            "%DESC 2 1 1 0 3 2 2 1 0 0 1\n2 1\n3\n6\n",
            3,
            PieceFault::Shape(2, 1, 1, 2),
        ),
        (
            "%DESC 2 1 1 0 3 2 2 1 0 0 1\n1 3\n3\n6\n9\n",
            3,
            PieceFault::Shape(1, 3, 1, 2),
        ),
        (
            "%DESC 2 1 1 0 3 2 2 1 0 0 1\n% 1 2\n\n1 1\n3\n",
            5,
            PieceFault::Shape(1, 1, 1, 2),
        ),
        (
            "%DESC 2 1 1 0 3 2 2 1 0 0 1\n1\n",
            3,
            PieceFault::Mm(MmFault::Size),
        ),
        (
            "%DESC 2 1 1 0 3 2 2 1 0 0 1\n",
            3,
            PieceFault::Mm(MmFault::Size),
        ),
        // values
        (
            "%DESC 2 1 1 0 3 2 2 1 0 0 1\n1 2\n3\n",
            5,
            PieceFault::Mm(MmFault::TooFew(1, 2)),
        ),
        (
            "%DESC 2 1 1 0 3 2 2 1 0 0 1\n1 2\n3\n6\n9\n",
            6,
            PieceFault::Mm(MmFault::TooMany(2)),
        ),
        (
            "%DESC 2 1 1 0 3 2 2 1 0 0 1\n1 2\n3\n6 9\n",
            5,
            PieceFault::Mm(MmFault::Value),
        ),
        (
            "%DESC 2 1 1 0 3 2 2 1 0 0 1\n1 2\n2147483648\n",
            4,
            PieceFault::Mm(MmFault::Range),
        ),
        (
            "%DESC 2 1 1 0 3 2 2 1 0 0 1\n1 2\n%\n",
            4,
            PieceFault::Mm(MmFault::Value),
        ),
        ("%DESC\u{1} 2\n", 2, PieceFault::Mm(MmFault::NotText)),
    ];
    for (text, line, fault) in rows {
        let mut store = MemStore::new(alloc, 512, 2)?;
        put(&rt, alloc, &mut store, "y.0.0", UPPER)?;
        put(&rt, alloc, &mut store, "y.1.0", text)?;
        refuses(
            &rt,
            gather_pieces(alloc, &mut store, "y").err(),
            "y.1.0",
            line,
            fault,
        );
    }
    Ok(())
}

#[test]
fn banners(rt: HostRuntime) -> Result<(), Fail> {
    let alloc = rt.alloc();
    let rows = [
        ("", 1, MmFault::Banner),
        ("%DESC 1 1 0 0 1 1 1 1 0 0 1\n", 1, MmFault::Banner),
        (
            "%%MatrixMarket matrix array real symmetric\n",
            1,
            MmFault::Field,
        ),
        (
            "%%MatrixMarket matrix array integer symmetric\n",
            1,
            MmFault::Symmetry,
        ),
        (
            "%%MatrixMarket matrix array integer skew-symmetric\n",
            1,
            MmFault::Symmetry,
        ),
        (
            "%%MatrixMarket matrix array integer x\n",
            1,
            MmFault::Symmetry,
        ),
    ];
    for (text, line, fault) in rows {
        let mut store = MemStore::new(alloc, 256, 2)?;
        assert!(rt; store.put("s.0.0", text.as_bytes()));
        let error = gather_pieces(alloc, &mut store, "s").err();
        refuses(&rt, error, "s.0.0", line, PieceFault::Mm(fault));
    }
    Ok(())
}

#[test]
fn pieces_of_a_column(rt: HostRuntime) -> Result<(), Fail> {
    let alloc = rt.alloc();
    let spelled = "%DESC 2 1 1 0 3 2 2 1 0 0 1\r\n% x\n\n%DESC\n +1 02\n\n3\n+06\n\n";
    for lower in [LOWER, spelled] {
        let mut store = MemStore::new(alloc, 512, 2)?;
        put(&rt, alloc, &mut store, "y.0.0", UPPER)?;
        put(&rt, alloc, &mut store, "y.1.0", lower)?;
        let pieces = gather_pieces(alloc, &mut store, "y").map_err(|_| "pieces")?;
        assert_eq!(rt; pieces.len(), 2);
        holds(&rt, &pieces[0], &[1, 2, 4, 5]);
        holds(&rt, &pieces[1], &[3, 6]);
        assert_eq!(rt;
            (pieces[1].head.prow, pieces[1].head.pcol, pieces[1].head.lld),
            (1, 0, 1)
        );
    }
    Ok(())
}

// A matrix without rows over 2 by 2 processes: each has one row of padding.
#[test]
fn pieces_without_rows(rt: HostRuntime) -> Result<(), Fail> {
    let alloc = rt.alloc();
    let mut store = MemStore::new(alloc, 512, 4)?;
    put(
        &rt,
        alloc,
        &mut store,
        "z.0.0",
        "%DESC 2 2 0 0 0 5 2 2 0 0 1\n1 3\n0\n0\n0\n",
    )?;
    put(
        &rt,
        alloc,
        &mut store,
        "z.0.1",
        "%DESC 2 2 0 1 0 5 2 2 0 0 1\n1 2\n0\n0\n",
    )?;
    put(
        &rt,
        alloc,
        &mut store,
        "z.1.0",
        "%DESC 2 2 1 0 0 5 2 2 0 0 1\n1 3\n0\n0\n0\n",
    )?;
    put(
        &rt,
        alloc,
        &mut store,
        "z.1.1",
        "%DESC 2 2 1 1 0 5 2 2 0 0 1\n1 2\n0\n7\n",
    )?;
    let pieces = gather_pieces(alloc, &mut store, "z").map_err(|_| "pieces")?;
    assert_eq!(rt; pieces.len(), 4);
    holds(&rt, &pieces[1], &[0, 0]);
    holds(&rt, &pieces[3], &[0, 7]);
    Ok(())
}

// The first block lies on process (1, 0), and the arrays have more rows than they need.
#[test]
fn other_sources_and_padding(rt: HostRuntime) -> Result<(), Fail> {
    let alloc = rt.alloc();
    let mut store = MemStore::new(alloc, 512, 2)?;
    let upper = "%DESC 2 1 0 0 3 1 2 1 1 0 3\n3 1\n3\n-1\n-2\n";
    put(&rt, alloc, &mut store, "v.0.0", upper)?;
    put(
        &rt,
        alloc,
        &mut store,
        "v.1.0",
        "%DESC 2 1 1 0 3 1 2 1 1 0 2\n2 1\n1\n2\n",
    )?;
    let pieces = gather_pieces(alloc, &mut store, "v").map_err(|_| "pieces")?;
    assert_eq!(rt; pieces.len(), 2);
    holds(&rt, &pieces[0], &[3, -1, -2]);
    holds(&rt, &pieces[1], &[1, 2]);
    Ok(())
}

#[test]
fn missing_pieces(rt: HostRuntime) -> Result<(), Fail> {
    let alloc = rt.alloc();
    for (held, text, missing) in [
        ("y.1.0", LOWER, "y.0.0"),
        ("y.0.0", UPPER, "y.1.0"),
        ("y", UPPER, "y.0.0"),
    ] {
        let mut store = MemStore::new(alloc, 512, 2)?;
        put(&rt, alloc, &mut store, held, text)?;
        match gather_pieces(alloc, &mut store, "y") {
            Err(PieceErr::Missing(name)) => assert_eq!(rt; name.as_str(), missing),
            _ => panic!(rt; "another answer"),
        }
        assert_eq!(rt; (store.faults(), store.misses()), (0, 1));
    }
    Ok(())
}

// The words of all pieces are at most 2^26, as the size line of the last one tells.
#[test]
fn words_of_all_pieces(rt: HostRuntime) -> Result<(), Fail> {
    let alloc = rt.alloc();
    let rows = [
        (
            "%DESC 2 1 1 0 1 4 1 4 0 0 16777215\n16777215 4\n",
            4,
            PieceFault::Mm(MmFault::TooFew(0, 67_108_860)),
        ),
        (
            "%DESC 2 1 1 0 1 4 1 4 0 0 16777216\n16777216 4\n",
            3,
            PieceFault::TooLarge(67_108_868),
        ),
        (
            "%DESC 2 1 1 0 1 4 1 4 0 0 16777216\n16777216 5\n",
            3,
            PieceFault::Mm(MmFault::Size),
        ),
        (
            "%DESC 2 1 1 0 1 4 1 4 0 0 16777216\n16777216 3\n",
            3,
            PieceFault::Shape(16_777_216, 3, 16_777_216, 4),
        ),
    ];
    for (text, line, fault) in rows {
        let mut store = MemStore::new(alloc, 512, 2)?;
        put(
            &rt,
            alloc,
            &mut store,
            "w.0.0",
            "%DESC 2 1 0 0 1 4 1 4 0 0 1\n1 4\n1\n2\n3\n4\n",
        )?;
        put(&rt, alloc, &mut store, "w.1.0", text)?;
        refuses(
            &rt,
            gather_pieces(alloc, &mut store, "w").err(),
            "w.1.0",
            line,
            fault,
        );
    }
    Ok(())
}

#[test]
fn what_was_read_is_written_again(rt: HostRuntime) -> Result<(), Fail> {
    let alloc = rt.alloc();
    let mut store = MemStore::new(alloc, 512, 3)?;
    put(&rt, alloc, &mut store, "y.1.0", LOWER)?;
    let piece = read_piece(alloc, &mut store, "y", 1, 0).map_err(|_| "a piece")?;
    holds(&rt, &piece, &[3, 6]);
    write_piece(&mut store, "w.1.0", &piece.head, &piece.cells)?;
    let want = format!(in alloc; "{BANNER}{LOWER}")?;
    assert_eq!(rt; store.file("w.1.0"), Some(want.as_bytes()));
    Ok(())
}
