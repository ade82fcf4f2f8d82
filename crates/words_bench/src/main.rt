//! Packs an N by N array in squares of SIDE rows into a message and unpacks it into another array, REPS times: the squares as a list of regions, or as runs of rows by runs of columns. `words_bench N SIDE REPS list|runs`, and `time` after it for the times.
#![tactic(auto)]

ghost use Rattle.std.specs.Prelude.{◌≡◌, ◌<◌, ◌≤◌, length, IfOk};

use pack_words::{Cut, LocalArray, RankOp, Region, Regions, Shape, Span};
use std::alloc::{AllocError, Global};
use std::env;
use std::time::Instant;
use words_tests::checks::{are_moved, in_array};

// The squares of an n by n array, by columns.
fn squares(alloc: Global, n: u32, side: u32) -> Result<Vec<Region>, AllocError>
    requires { 0 < side }
{
    let mut all = Vec::new(alloc);
    for j in 0..n / side {
        for i in 0..n / side {
            let (i, j) = (i.wrapping_mul(side), j.wrapping_mul(side));
            all.push(Region {
                li: i,
                lj: j,
                rows: side,
                cols: side,
                i0: i,
                j0: j,
            })?;
        }
    }
    Ok(all)
}

// The runs of one axis.
fn runs(alloc: Global, n: u32, side: u32) -> Result<Vec<Span>, AllocError>
    requires { 0 < side }
{
    let mut all = Vec::new(alloc);
    for i in 0..n / side {
        let first = i.wrapping_mul(side);
        all.push(Span {
            first,
            place: first,
            len: side,
        })?;
    }
    Ok(all)
}

// The squares as a list, or as runs: None where there are too many runs.
fn regions_of(
    alloc: Global,
    n: u32,
    side: u32,
    cut: &Cut,
    listed: bool,
) -> Result<Option<Regions>, AllocError>
    requires { 0 < side }
{
    if listed {
        return Ok(Some(Regions::new(squares(alloc, n, side)?)));
    }
    let rows = runs(alloc, n, side)?;
    let cols = runs(alloc, n, side)?;
    if rows.len() > 8192 || cols.len() > 8192 {
        return Ok(None);
    }
    Ok(Some(Regions::crossed(alloc, rows, cols, cut)?))
}

// Random words.
fn fill(array: &mut LocalArray) {
    let (lld, cols) = (array.lld(), array.cols());
    let mut x = 1u32;
    for j in 0..cols {
        for i in 0..lld {
            x = x.wrapping_mul(1_664_525).wrapping_add(1_013_904_223);
            if i < array.lld() && j < array.cols() {
                array.set(i, j, (x >> 1).cast_signed());
            }
        }
    }
}

// Whether the columns of two arrays have the same words.
fn are_same(a: &LocalArray, b: &LocalArray) -> bool {
    if a.cols() != b.cols() {
        return false;
    }
    for j in 0..a.cols() {
        if j < b.cols() && a.column(j) != b.column(j) {
            return false;
        }
    }
    true
}

// The microseconds of one packing and one unpacking into the other array: None where the regions don't lie there.
fn moved(
    rt: &HostRuntime,
    regions: &Regions,
    cut: &Cut,
    a: &LocalArray,
    b: &mut LocalArray,
) -> anyhow::Result<Option<(u128, u128)>> {
    if !are_moved(regions, cut) || !in_array(a, regions) || !in_array(b, regions) {
        return Ok(None);
    }
    let mut message = vec![in rt.alloc(); 0i32; regions.count(cut) as usize]?;
    let start = Instant::now(rt)?;
    regions.pack(a, cut, message.as_mut_slice());
    let pack_us = start.elapsed(rt)?.as_micros();
    let start = Instant::now(rt)?;
    regions.unpack(b, cut, message.as_slice());
    let unpack_us = start.elapsed(rt)?.as_micros();
    Ok(Some((pack_us, unpack_us)))
}

fn main(rt: HostRuntime) -> anyhow::Result<()> {
    let alloc = rt.alloc();
    let words: Vec<String> = env::args(&rt)?.collect(alloc)?;
    if words.len() < 5 {
        return Err(anyhow::anyhow!("usage: words_bench N SIDE REPS list|runs [time]"));
    }
    let n = words[1].parse::<u32>()?;
    let side = words[2].parse::<u32>()?;
    let reps = words[3].parse::<u32>()?;
    if side == 0 || n > 8192 {
        return Err(anyhow::anyhow!("SIDE is at least 1, and N at most 8192"));
    }
    let listed = words[4].as_str() == "list";
    let cut = Cut {
        shape: Shape::Ge,
        m: n,
        n,
    };
    let regions = regions_of(alloc, n, side, &cut, listed)?.ok_or_else(|| anyhow::anyhow!(
        "too many"
    ))?;
    let mut a = LocalArray::new(alloc, n, n)?;
    let mut b = LocalArray::new(alloc, n, n)?;
    fill(&mut a);
    for _ in 0..reps {
        let (pack_us, unpack_us) = moved(&rt, &regions, &cut, &a, &mut b)?.ok_or_else(
            || anyhow::anyhow!("the squares don't lie there"),
        )?;
        if words.len() > 5 {
            println!(rt; "pack {pack_us} us, unpack {unpack_us} us")?;
        }
    }
    let same = are_same(&a, &b);
    println!(rt; "{n} by {n} in squares of {side}: same {same}")?;
    println!(rt; "an operation of a rank has {} bytes", size_of::<RankOp>())?;
    Ok(())
}
