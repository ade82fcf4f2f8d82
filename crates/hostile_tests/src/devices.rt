//! Devices that fail at one call: each kind of call on each file, and each write of the two streams, at its first time, at every later
//! one and at its last.
use crate::rows::{LONG, ROWS, Row};
use crate::setting::Setting;
use crate::texts::text;
use std::alloc::{AllocError, Global};
use std::process::Abort;
use std::test::Fail;
use store_io::CallKind;

// Whether a file is a front of a text.
fn is_front(setting: &Setting, name: &str, text: &[u8]) -> bool {
    match setting.store.file(name) {
        Some(held) => text.starts_with(held),
        None => false,
    }
}

// A call that is to fail: its kind, the name of its file, and the room of the store.
#[derive(Clone, Copy)]
struct Call<'a> {
    kind: CallKind,
    name: &'a str,
    room: usize,
}

impl Call<'_> {
    // Whether the saved name at a place stands as the run leaves it: those before the failing one are whole, later ones as before.
    fn stands(
        &self,
        alloc: Global,
        row: &Row,
        setting: &Setting,
        k: usize,
    ) -> Result<bool, AllocError> {
        let Some((saved, short)) = row.saves.get(k) else {
            return Ok(true);
        };
        let text = text(alloc, *short)?;
        let failing = row.place(self.name);
        let reads = failing == row.saves.len();
        Ok(if reads || k > failing {
            row.is_older(setting, k, *saved)
        } else if k < failing {
            setting.holds(*saved, text.as_bytes())
        } else {
            match self.kind {
                CallKind::OpenWrite => row.is_older(setting, k, *saved),
                CallKind::Write => is_front(setting, *saved, text.as_bytes()),
                _ => setting.holds(*saved, text.as_bytes()),
            }
        })
    }

    // Whether all saved names stand so.
    fn all_stand(&self, alloc: Global, row: &Row, setting: &Setting) -> Result<bool, AllocError> {
        for k in 0..row.saves.len() {
            if !self.stands(alloc, row, setting, k)? {
                return Ok(false);
            }
        }
        Ok(true)
    }

    // How a run ends where the call fails at its nth time.
    fn turn(&self, alloc: Global, row: &Row, nth: u32) -> Result<Turn, AllocError> {
        let Some(mut setting) = row.setting(alloc, self.room)? else {
            return Ok(Turn::Wrong);
        };
        let _fits = setting.store.fail(self.kind, self.name, nth);
        let status = setting.run(alloc, row.line)?;
        let line = format!(in alloc; "{}: store fault", self.name)?;
        Ok(if setting.store.faults() == 0 {
            Turn::done(status == 0 && row.is_done(alloc, &setting)?)
        } else {
            let told = status == 3 && setting.told(alloc, line.as_str())?;
            Turn::failed(told && self.all_stand(alloc, row, &setting)?)
        })
    }

    // Lets the call fail at its first time, its second and so on, until the run makes no more such calls; at least so many.
    fn fails_in_turn(
        &self,
        rt: &impl Abort,
        alloc: Global,
        row: &Row,
        least: u32,
    ) -> Result<(), Fail> {
        let mut count = 0u32;
        for nth in 1..20u32 {
            match self.turn(alloc, row, nth)? {
                Turn::Failed => count = nth,
                Turn::Done => break,
                Turn::Wrong => {
                    count = 20;
                    break;
                }
            }
        }
        Ok(assert!(rt;
            count >= least && count < 19,
            "{} {} {count}",
            row.line,
            self.name
        ))
    }
}

// How a run ended: as one that fails has to, as the row says, or otherwise.
#[derive(Clone, Copy)]
enum Turn {
    Failed,
    Done,
    Wrong,
}

impl Turn {
    fn failed(good: bool) -> Turn {
        if good { Turn::Failed } else { Turn::Wrong }
    }

    fn done(good: bool) -> Turn {
        if good { Turn::Done } else { Turn::Wrong }
    }
}

// Each kind of call on each file of a row; reads and writes come at least so many times.
fn calls_of(
    rt: &impl Abort,
    alloc: Global,
    row: &Row,
    room: usize,
    least: u32,
) -> Result<(), Fail> {
    for (name, _short) in row.files {
        for (kind, least) in [(CallKind::OpenRead, 1), (CallKind::Read, least)] {
            let call = Call {
                kind,
                name: *name,
                room,
            };
            call.fails_in_turn(rt, alloc, row, least)?;
        }
    }
    for (name, _short) in row.saves {
        for (kind, least) in [
            (CallKind::OpenWrite, 1),
            (CallKind::Write, least),
            (CallKind::Close, 1),
        ] {
            let call = Call {
                kind,
                name: *name,
                room,
            };
            call.fails_in_turn(rt, alloc, row, least)?;
        }
    }
    Ok(())
}

#[test]
fn calls_of_the_store(rt: HostRuntime) -> Result<(), Fail> {
    let alloc = rt.alloc();
    for row in &ROWS {
        calls_of(&rt, alloc, row, 8192, 1)?;
    }
    calls_of(&rt, alloc, &LONG, 1_000_000, 3)
}

// How a run ends where the nth write of the output fails: all is saved, and a front was written.
fn output_turn(alloc: Global, row: &Row, nth: u32) -> Result<Turn, AllocError> {
    let Some(mut setting) = row.setting(alloc, 8192)? else {
        return Ok(Turn::Wrong);
    };
    setting.out.fail(nth);
    let status = setting.run(alloc, row.line)?;
    let whole = text(alloc, row.output)?;
    Ok(if setting.out.faults() == 0 {
        Turn::done(status == 0 && row.is_done(alloc, &setting)?)
    } else {
        let front = whole.as_bytes().starts_with(setting.out.bytes());
        let told = setting.err.bytes() == b"gridtool: output fault\n".as_slice();
        Turn::failed(status == 5 && front && told && row.is_saved(alloc, &setting)?)
    })
}

#[test]
fn writes_of_the_output(rt: HostRuntime) -> Result<(), Fail> {
    let alloc = rt.alloc();
    for row in &ROWS {
        let mut count = 0u32;
        for nth in 1..20u32 {
            match output_turn(alloc, row, nth)? {
                Turn::Failed => count = nth,
                Turn::Done => break,
                Turn::Wrong => {
                    count = 20;
                    break;
                }
            }
        }
        assert!(rt;
            (count > 0 || row.output.is_empty()) && count < 19,
            "{} {count}",
            row.line
        );
    }
    Ok(())
}

const USAGE: &str =
    "usage: gridtool split IN OUT P Q MB NB\n       gridtool join PREFIX OUT\n       gridtool move PREFIX OUT P Q MB NB [--threads | --seed S]\n       gridtool check PROGRAM\n       gridtool run PROGRAM [--threads | --seed S]\n       gridtool load SEED SIZE\n";

// Lines, and what each tells: the usage, a refusal, a missing file, a fault of the store and one of the output.
static TOLD: [(&str, u8, &str); 6] = [
    ("join y", 2, USAGE),
    ("split m x 64 64 1 1", 2, USAGE),
    (
        "split p x 1 1 1 1",
        1,
        "gridtool: p: line 1: not a Matrix Market file\n",
    ),
    ("join nope o", 3, "gridtool: nope.0.0: missing\n"),
    ("split m f 1 1 1 1", 3, "gridtool: f.0.0: store fault\n"),
    ("check p", 5, "gridtool: output fault\n"),
];

// How a run ends where the nth write of the error stream fails: with the same status, and a front was written.
fn told_turn(alloc: Global, row: &(&str, u8, &str), nth: u32) -> Result<Turn, AllocError> {
    let (line, code, told) = *row;
    let mut setting = Setting::with(alloc, &[("p", "RANKS 1/"), ("m", "B/1 1/5/")])?;
    let _fits = setting.store.fail(CallKind::OpenWrite, "f.0.0", 1);
    setting.out.fail(1);
    setting.err.fail(nth);
    let status = setting.run(alloc, line)?;
    let written = setting.err.bytes();
    Ok(if setting.err.faults() == 0 {
        Turn::done(status == code && written == told.as_bytes())
    } else {
        Turn::failed(status == code && told.as_bytes().starts_with(written))
    })
}

#[test]
fn writes_of_the_error_stream(rt: HostRuntime) -> Result<(), Fail> {
    let alloc = rt.alloc();
    for row in &TOLD {
        let mut count = 0u32;
        for nth in 1..20u32 {
            match told_turn(alloc, row, nth)? {
                Turn::Failed => count = nth,
                Turn::Done => break,
                Turn::Wrong => {
                    count = 20;
                    break;
                }
            }
        }
        assert!(rt; count > 0 && count < 19, "{} {count}", row.0);
    }
    Ok(())
}
