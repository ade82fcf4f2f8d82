//! Quotients rounded up, and least common multiples.

ghost use Rattle.std.specs.Prelude.{◌≤◌, ◌<◌, ◌^◌};
ghost use Rattle.std.specs.Int.{IsGcd};
ghost use Rattle.index_tools.specs.Multiples.{IsLeastCover, IsLeastCommonMultiple, Scales};

/// The least number whose product with `idenom` is at least `inum`: their quotient, rounded up. ScaLAPACK TOOLS,
/// `ICEIL`, with no sum that wraps.
pub fn iceil(inum: u32, idenom: u32) -> u32
    requires { 1 ≤ idenom }
    ensures { IsLeastCover inum idenom result }
{
    inum.div_ceil(idenom)
}

/// The least positive common multiple of `m` and `n`, at most 2^60. ScaLAPACK TOOLS, `ILCM`, with no product that
/// wraps.
pub fn ilcm(m: u32, n: u32) -> u64
    requires first { 1 ≤ m }
    requires first_fits { m ≤ 2 ^ 30 }
    requires second { 1 ≤ n }
    requires second_fits { n ≤ 2 ^ 30 }
    ensures { IsLeastCommonMultiple m n result }
{
    u64::from(m / greatest_common_divisor(m, n)) * u64::from(n)
}

// By Euclid's steps.
fn greatest_common_divisor(m: u32, n: u32) -> u32
    requires first { 1 ≤ m }
    ensures greatest { IsGcd m n result }
    ensures scales { Scales m n result }
    ensures positive { 1 ≤ result }
{
    let mut larger = m;
    let mut smaller = n;
    while smaller > 0 {
        let rest = larger % smaller;
        larger = smaller;
        smaller = rest;
    }
    larger
}
