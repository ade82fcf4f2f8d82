//! Sizes at their limits and rarer forms, all with ample memory: no clause rules out a body that answers out of memory above some size.
use crate::running::does;
use crate::setting::Setting;
use crate::texts::text;
use itoa::Buffer;
use std::alloc::{AllocError, Global};
use std::test::Fail;

// The text of a matrix of 65 by 65 elements.
fn sixty_five(alloc: Global) -> Result<String, AllocError> {
    let mut text = text(alloc, "B/65 65/")?;
    let mut digits = Buffer::new();
    for k in 0..4225u32 {
        let value = (k.wrapping_mul(7919) % 100_003) as i32 - 50_000;
        text.push_str(digits.format(value))?;
        text.push_str("\n")?;
    }
    Ok(text)
}

#[test]
fn grids_of_sixty_four_processes(rt: HostRuntime) -> Result<(), Fail> {
    let alloc = rt.alloc();
    let whole = sixty_five(alloc)?;
    let grids = [
        (
            "split m x 8 8 1 1",
            "move x y 64 1 2 2",
            "meets 4225 messages 512 copies 8/",
        ),
        (
            "split m x 64 1 1 1",
            "move x y 1 64 2 2",
            "meets 4225 messages 2079 copies 33/",
        ),
        (
            "split m x 1 64 1 1",
            "move x y 8 8 2 2 --seed 5",
            "meets 4225 messages 504 copies 8/",
        ),
    ];
    for (split, moved, numbers) in grids {
        let mut setting = Setting::new(alloc, 200_000)?;
        assert!(rt; setting.store.put("m", whole.as_bytes()));
        does(
            &rt,
            alloc,
            &mut setting,
            &[(split, ""), (moved, numbers), ("join y n", "")],
        )?;
        assert!(rt; setting.holds("n", whole.as_bytes()), "{moved}");
    }
    Ok(())
}

#[test]
fn sixty_four_members_of_each_topology(rt: HostRuntime) -> Result<(), Fail> {
    let alloc = rt.alloc();
    for top in "IDSMHFT-123456789".chars() {
        let program = format!(in alloc;
            "RANKS 64/GRID w R 8 8/GRID g C 64 1/MATRIX v 1 1/MATRIX u 1 1/FILL v 0 0 0 1/FILL u 0 0 0 1/AMN w A {top} 7 7 v 1 1 1 1/SUM g A {top} -1 0 v 1 1 1 1/BCAST w A {top} 3 5 u 1 1 1 1/PRINT v 0/PRINT u 63/"
        )?;
        let mut setting = Setting::with(alloc, &[("p", program.as_str())])?;
        let numbers = "ranks 64/operations 697/messages 252/words 443/";
        let printed = "v rank 0 1 1/1953/u rank 63 1 1/29/";
        does(
            &rt,
            alloc,
            &mut setting,
            &[
                ("check p", numbers),
                ("run p", printed),
                ("run p --seed 64", printed),
            ],
        )?;
    }
    Ok(())
}

#[test]
fn sixteen_grids_and_seventeen_arrays(rt: HostRuntime) -> Result<(), Fail> {
    let alloc = rt.alloc();
    let mut program = String::from_str(alloc, "RANKS 2/")?;
    for k in 0..16u32 {
        program = format!(in alloc; "{program}GRID g{k} R 1 2/")?;
    }
    for k in 0..17u32 {
        program = format!(in alloc; "{program}ARRAY a{k} g15 2 2 1 1 0 {}/", k % 2)?;
    }
    let program = format!(in alloc;
        "{program}FILL a16 1 1 10 0/GEMR2D 2 2 a16 1 1 a15 1 1 g0/PRINT a15/"
    )?;
    let mut setting = Setting::with(alloc, &[("p", program.as_str())])?;
    does(
        &rt,
        alloc,
        &mut setting,
        &[
            ("check p", "ranks 2/operations 4/messages 2/words 72/"),
            ("run p", "a15 2 2/1 11/2 12/"),
        ],
    )
}

// The line with `N` as the name of so many bytes.
fn named(alloc: Global, line: &str, bytes: usize) -> Result<String, AllocError> {
    let name = "n".repeat(alloc, bytes)?;
    let mut named = String::new(alloc);
    for c in line.chars() {
        if c == 'N' {
            named.push_str(name.as_str())?;
        } else {
            named.push(c)?;
        }
    }
    Ok(named)
}

const PIECE: &str = "B/%DESC 1 1 0 0 1 1 1 1 0 0 1/1 1/5/";

// The status of a line with `N` as the name of so many bytes, where a matrix, a piece and a file of this text have such names.
fn status_of(alloc: Global, line: &str, file: &str, bytes: usize) -> Result<u8, AllocError> {
    let mut setting = Setting::with(alloc, &[("m", "B/1 1/5/"), ("x.0.0", PIECE)])?;
    let name = named(alloc, "N", bytes)?;
    let piece = named(alloc, "N.0.0", bytes)?;
    let _fits = setting.put(alloc, name.as_str(), file)?
        && setting.put(alloc, piece.as_str(), PIECE)?;
    let words = named(alloc, line, bytes)?;
    setting.run(alloc, words.as_str())
}

// Each line is done with a name of 1,024 bytes, and shows the usage with one of 1,025.
#[test]
fn names_of_1024_bytes(rt: HostRuntime) -> Result<(), Fail> {
    let alloc = rt.alloc();
    let lines = [
        ("split m N 1 1 2 2", ""),
        ("split N x 1 1 2 2", "B/1 1/5/"),
        ("join N o", ""),
        ("join x N", ""),
        ("move N y 2 1 1 1", ""),
        ("move x N 2 1 1 1", ""),
        ("check N", "RANKS 1/"),
        ("run N", "RANKS 1/"),
    ];
    for (line, file) in lines {
        let fits = status_of(alloc, line, file, 1024)?;
        let past = status_of(alloc, line, file, 1025)?;
        assert_eq!(rt; (fits, past), (0, 2), "{line}");
    }
    Ok(())
}

// A file, a line that spreads it, and the matrix that its pieces are joined to.
#[test]
fn symmetric_files(rt: HostRuntime) -> Result<(), Fail> {
    let alloc = rt.alloc();
    let rows = [
        ("symmetric/3 3/1/2/3/4/5/6/", "B/3 3/1/2/3/2/4/5/3/5/6/"),
        ("skew-symmetric/3 3/1/2/3/", "B/3 3/0/1/2/-1/0/3/-2/-3/0/"),
        ("Symmetric/1 1/-2147483648/", "B/1 1/-2147483648/"),
        (
            "SKEW-symmetric/2 2/2147483647/",
            "B/2 2/0/2147483647/-2147483647/0/",
        ),
        ("symmetric/0 0/", "B/0 0/"),
        ("skew-symmetric/1 1/", "B/1 1/0/"),
    ];
    for (short, joined) in rows {
        let file = format!(in alloc; "%%MatrixMarket matrix array integer {short}")?;
        let mut setting = Setting::with(alloc, &[("m", file.as_str())])?;
        does(
            &rt,
            alloc,
            &mut setting,
            &[("split m x 2 2 1 1", ""), ("join x n", "")],
        )?;
        assert!(rt; setting.has(alloc, "n", joined)?, "{short}");
    }
    Ok(())
}

// The first block of a 3 by 3 matrix lies on process (1, 1), and one local array has two rows of padding.
#[test]
fn pieces_whose_first_block_lies_elsewhere(rt: HostRuntime) -> Result<(), Fail> {
    let alloc = rt.alloc();
    let pieces = [
        ("p.0.0", "B/%DESC 2 2 0 0 3 3 1 1 1 1 1/1 1/11/"),
        (
            "p.0.1",
            "B/%DESC 2 2 0 1 3 3 1 1 1 1 3/3 2/10/-1/-1/12/-2/-2/",
        ),
        ("p.1.0", "B/%DESC 2 2 1 0 3 3 1 1 1 1 2/2 1/1/21/"),
        ("p.1.1", "B/%DESC 2 2 1 1 3 3 1 1 1 1 2/2 2/0/20/2/22/"),
    ];
    let mut setting = Setting::with(alloc, &pieces)?;
    does(
        &rt,
        alloc,
        &mut setting,
        &[
            ("join p n", ""),
            ("move p t 1 1 3 3", "meets 9 messages 3 copies 1/"),
        ],
    )?;
    assert!(rt; setting.has(alloc, "n", "B/3 3/0/10/20/1/11/21/2/12/22/")?);
    assert!(rt;
        setting.has(
            alloc,
            "t.0.0",
            "B/%DESC 1 1 0 0 3 3 3 3 0 0 3/3 3/0/10/20/1/11/21/2/12/22/"
        )?
    );
    Ok(())
}
