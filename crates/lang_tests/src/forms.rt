//! Each form of a line with the value that it gives.
use crate::reading::{ends_with, with_line};
use std::test::Fail;

const DECLARED: &str = "RANKS 6
GRID g R 2 3
MAP h 1 2 5 0
ARRAY a g 7 5 2 2 0 1
ARRAY b h -1 +5 2 3 0 -2 9
MATRIX v 4 3
MATRIX u_1 1 16777216
";

#[test]
fn every_declaration_gives_its_value(rt: HostRuntime) -> Result<(), Fail> {
    let alloc = rt.alloc();
    let rows = [
        ("", "RANKS 64", "1 Ranks { n: 64 }"),
        (
            "RANKS 6\n",
            "GRID g R 2 3",
            "2 Grid { order: R, nprow: 2, npcol: 3 }",
        ),
        (
            "RANKS 6\n",
            "GRID g c 0 70000",
            "2 Grid { order: C, nprow: 0, npcol: 70000 }",
        ),
        (
            "RANKS 6\n",
            "MAP h 2 1 5 +0",
            "2 Map { nprow: 2, npcol: 1, ranks: MapRanks { ranks: [5, 0] } }",
        ),
        (
            "RANKS 6\n",
            "MAP h 0 3",
            "2 Map { nprow: 0, npcol: 3, ranks: MapRanks { ranks: [] } }",
        ),
        (
            DECLARED,
            "ARRAY c h 7 5 2 2 0 1",
            "8 Array { name: Ident { text: \"c\" }, grid: 1, m: 7, n: 5, mb: 2, nb: 2, rsrc: 0, csrc: 1, lld: None }",
        ),
        (
            DECLARED,
            "ARRAY c g -1 +5 2 3 0 -2 9",
            "8 Array { name: Ident { text: \"c\" }, grid: 0, m: -1, n: 5, mb: 2, nb: 3, rsrc: 0, csrc: -2, lld: Some(9) }",
        ),
        (
            DECLARED,
            "MATRIX A_9 4 3",
            "8 Matrix { name: Ident { text: \"A_9\" }, lld: 4, cols: 3 }",
        ),
        (
            DECLARED,
            "LOAD b m.mtx",
            "8 Load { array: 1, file: Ident { text: \"m.mtx\" } }",
        ),
        (
            DECLARED,
            "FILL v -2147483648 0 +7 2147483647",
            "8 Fill { array: 2, a: -2147483648, b: 0, c: 7, d: 2147483647 }",
        ),
    ];
    for (text, line, wanted) in rows {
        let whole = with_line(alloc, text, line)?;
        assert!(rt; ends_with(alloc, whole.as_bytes(), wanted)?, "{line}");
    }
    Ok(())
}

#[test]
fn every_exchange_gives_its_value(rt: HostRuntime) -> Result<(), Fail> {
    let alloc = rt.alloc();
    let rows = [
        (
            "SEND g 0 2 v 1 2 3 1 1 0",
            "8 Send { grid: 0, p: 0, q: 2, area: Area { array: 2, i: 1, j: 2, m: 3, n: 1 }, rdest: 1, cdest: 0, tri: None }",
        ),
        (
            "SEND g 0 2 a 1 2 3 1 1 0 u N",
            "8 Send { grid: 0, p: 0, q: 2, area: Area { array: 0, i: 1, j: 2, m: 3, n: 1 }, rdest: 1, cdest: 0, tri: Some((Upper, N)) }",
        ),
        (
            "RECV h 1 0 u_1 4 3 1 1 0 2",
            "8 Recv { grid: 1, p: 1, q: 0, area: Area { array: 3, i: 4, j: 3, m: 1, n: 1 }, rsrc: 0, csrc: 2, tri: None }",
        ),
        (
            "RECV g 1 0 v 4 3 1 1 0 2 L u",
            "8 Recv { grid: 0, p: 1, q: 0, area: Area { array: 2, i: 4, j: 3, m: 1, n: 1 }, rsrc: 0, csrc: 2, tri: Some((Lower, U)) }",
        ),
        (
            "BCAST g C12 - 0 1 a 1 1 2 2",
            "8 Bcast { grid: 0, scope: Column(12), top: H, rsrc: 0, csrc: 1, area: Area { array: 0, i: 1, j: 1, m: 2, n: 2 }, tri: None }",
        ),
        (
            "BCAST h r00 3 0 1 b 1 1 2 2 l n",
            "8 Bcast { grid: 1, scope: Row(0), top: T(3), rsrc: 0, csrc: 1, area: Area { array: 1, i: 1, j: 1, m: 2, n: 2 }, tri: Some((Lower, N)) }",
        ),
        (
            "SUM g A I -1 -9 v 1 1 4 3",
            "8 Sum { grid: 0, scope: All, top: I, dest: None, area: Area { array: 2, i: 1, j: 1, m: 4, n: 3 } }",
        ),
        (
            "SUM g a t +1 02 v 1 1 4 3",
            "8 Sum { grid: 0, scope: All, top: T(2), dest: Some((1, 2)), area: Area { array: 2, i: 1, j: 1, m: 4, n: 3 } }",
        ),
        (
            "AMX g c0 s 0 0 v 1 1 1 1",
            "8 Amx { grid: 0, scope: Column(0), top: S, dest: Some((0, 0)), area: Area { array: 2, i: 1, j: 1, m: 1, n: 1 }, rc: None }",
        ),
        (
            "AMX g R2147483647 f -1 0 v 1 1 1 1 u_1 b",
            "8 Amx { grid: 0, scope: Row(2147483647), top: F, dest: None, area: Area { array: 2, i: 1, j: 1, m: 1, n: 1 }, rc: Some((3, 1)) }",
        ),
        (
            "AMN g A m 0 0 v 1 1 1 1",
            "8 Amn { grid: 0, scope: All, top: M, dest: Some((0, 0)), area: Area { array: 2, i: 1, j: 1, m: 1, n: 1 }, rc: None }",
        ),
        (
            "AMN g A D -1 0 v 1 1 1 1 v v",
            "8 Amn { grid: 0, scope: All, top: D, dest: None, area: Area { array: 2, i: 1, j: 1, m: 1, n: 1 }, rc: Some((2, 2)) }",
        ),
        ("BARRIER h R1", "8 Barrier { grid: 1, scope: Row(1) }"),
        (
            "GEMR2D 2 -2 a 1 1 b 3 4 g",
            "8 Gemr2d { mr: Mr { m: 2, n: -2, a: 0, ia: 1, ja: 1, b: 1, ib: 3, jb: 4, grid: 0 } }",
        ),
        (
            "TRMR2D x ? 2 2 b 1 1 a 1 1 h",
            "8 Trmr2d { uplo: 'x', diag: '?', mr: Mr { m: 2, n: 2, a: 1, ia: 1, ja: 1, b: 0, ib: 1, jb: 1, grid: 1 } }",
        ),
    ];
    for (line, wanted) in rows {
        let whole = with_line(alloc, DECLARED, line)?;
        assert!(rt; ends_with(alloc, whole.as_bytes(), wanted)?, "{line}");
    }
    Ok(())
}

#[test]
fn every_result_gives_its_value(rt: HostRuntime) -> Result<(), Fail> {
    let alloc = rt.alloc();
    let rows = [
        (
            "SAVE a out.mtx",
            "8 Save { array: 0, file: Ident { text: \"out.mtx\" } }",
        ),
        (
            "SAVE b PIECES",
            "8 Save { array: 1, file: Ident { text: \"PIECES\" } }",
        ),
        (
            "SAVE b out pieces",
            "8 SavePieces { array: 1, prefix: Ident { text: \"out\" } }",
        ),
        ("PRINT b", "8 PrintArray { array: 1 }"),
        ("PRINT u_1 5", "8 PrintMatrix { array: 3, rank: 5 }"),
    ];
    for (line, wanted) in rows {
        let whole = with_line(alloc, DECLARED, line)?;
        assert!(rt; ends_with(alloc, whole.as_bytes(), wanted)?, "{line}");
    }
    Ok(())
}
