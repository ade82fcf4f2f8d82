//! Which elements the shapes select, drawn: `x` is selected, `.` is not, and rows are parted by `/`.

ghost use Rattle.std.specs.Prelude.{◌<◌};

use pack_words::{Cut, Diag, Shape, Uplo, selected};
use std::alloc::{AllocError, Global};
use std::test::Fail;

// Row `i` of the cut, drawn after the text.
fn draw_row(text: &mut String, cut: &Cut, i: u32) -> Result<(), AllocError>
    requires { i < cut.now.m }
{
    for j in 0..cut.n {
        text.push(if selected(cut, i, j) { 'x' } else { '.' })?;
    }
    Ok(())
}

// The cut, drawn.
fn drawn(alloc: Global, cut: &Cut) -> Result<String, AllocError> {
    let mut text = String::new(alloc);
    for i in 0..cut.m {
        if i > 0 {
            text.push('/')?;
        }
        draw_row(&mut text, cut, i)?;
    }
    Ok(text)
}

#[test]
fn trapezoids(rt: HostRuntime) -> Result<(), Fail> {
    // of 1 to 4 rows, one line each, by 1 to 4 columns
    let upper = [
        "x",
        "xx",
        "xxx",
        "xxxx",
        "x/x",
        "xx/.x",
        "xxx/.xx",
        "xxxx/.xxx",
        "x/x/x",
        "xx/xx/.x",
        "xxx/.xx/..x",
        "xxxx/.xxx/..xx",
        "x/x/x/x",
        "xx/xx/xx/.x",
        "xxx/xxx/.xx/..x",
        "xxxx/.xxx/..xx/...x",
    ];
    let upper_without_diagonal = [
        ".",
        ".x",
        ".xx",
        ".xxx",
        "x/.",
        ".x/..",
        ".xx/..x",
        ".xxx/..xx",
        "x/x/.",
        "xx/.x/..",
        ".xx/..x/...",
        ".xxx/..xx/...x",
        "x/x/x/.",
        "xx/xx/.x/..",
        "xxx/.xx/..x/...",
        ".xxx/..xx/...x/....",
    ];
    let lower = [
        "x",
        "xx",
        "xxx",
        "xxxx",
        "x/x",
        "x./xx",
        "xx./xxx",
        "xxx./xxxx",
        "x/x/x",
        "x./xx/xx",
        "x../xx./xxx",
        "xx../xxx./xxxx",
        "x/x/x/x",
        "x./xx/xx/xx",
        "x../xx./xxx/xxx",
        "x.../xx../xxx./xxxx",
    ];
    let lower_without_diagonal = [
        ".",
        "x.",
        "xx.",
        "xxx.",
        "./x",
        "../x.",
        "x../xx.",
        "xx../xxx.",
        "./x/x",
        "../x./xx",
        ".../x../xx.",
        "x.../xx../xxx.",
        "./x/x/x",
        "../x./xx/xx",
        ".../x../xx./xxx",
        "..../x.../xx../xxx.",
    ];
    let shapes = [
        (Uplo::Upper, Diag::N, upper),
        (Uplo::Upper, Diag::U, upper_without_diagonal),
        (Uplo::Lower, Diag::N, lower),
        (Uplo::Lower, Diag::U, lower_without_diagonal),
    ];
    for (uplo, diag, pictures) in shapes {
        for m in 0..4_usize {
            for n in 0..4_usize {
                let cut = Cut {
                    shape: Shape::Tr(uplo, diag),
                    m: m as u32 + 1,
                    n: n as u32 + 1,
                };
                assert_eq!(rt; drawn(rt.alloc(), &cut)?.as_str(), pictures[4 * m + n]);
            }
        }
    }
    Ok(())
}

#[test]
fn whole_matrices(rt: HostRuntime) -> Result<(), Fail> {
    let rows = [(0, 3, ""), (1, 0, ""), (1, 1, "x"), (2, 3, "xxx/xxx")];
    for (m, n, want) in rows {
        let cut = Cut {
            shape: Shape::Ge,
            m,
            n,
        };
        assert_eq!(rt; drawn(rt.alloc(), &cut)?.as_str(), want);
    }
    Ok(())
}
