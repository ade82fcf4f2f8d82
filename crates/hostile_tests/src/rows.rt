//! Worked rows of the commands that are done: what each reads, saves and prints.
use crate::setting::Setting;
use std::alloc::{AllocError, Global};

/// The words of a run, the files that it reads, those that it saves in their order, and what it prints; texts in their short forms.
pub(crate) struct Row {
    pub(crate) line: &'static str,
    pub(crate) files: &'static [(&'static str, &'static str)],
    pub(crate) saves: &'static [(&'static str, &'static str)],
    pub(crate) output: &'static str,
}

/// Rows of all commands, over small files.
pub(crate) static ROWS: [Row; 10] = [
    Row {
        line: "split a.mtx y 2 1 2 1",
        files: &[("a.mtx", "B/3 2/1/2/3/4/5/6/")],
        saves: &[
            ("y.0.0", "B/%DESC 2 1 0 0 3 2 2 1 0 0 2/2 2/1/2/4/5/"),
            ("y.1.0", "B/%DESC 2 1 1 0 3 2 2 1 0 0 1/1 2/3/6/"),
        ],
        output: "",
    },
    Row {
        line: "split m x 2 2 1 1",
        files: &[("m", "B/2 2/1/2/3/4/")],
        saves: &[
            ("x.0.0", "B/%DESC 2 2 0 0 2 2 1 1 0 0 1/1 1/1/"),
            ("x.0.1", "B/%DESC 2 2 0 1 2 2 1 1 0 0 1/1 1/3/"),
            ("x.1.0", "B/%DESC 2 2 1 0 2 2 1 1 0 0 1/1 1/2/"),
            ("x.1.1", "B/%DESC 2 2 1 1 2 2 1 1 0 0 1/1 1/4/"),
        ],
        output: "",
    },
    Row {
        line: "join y n",
        files: &[
            ("y.0.0", "B/%DESC 2 1 0 0 3 2 2 1 0 0 2/2 2/1/2/4/5/"),
            ("y.1.0", "B/%DESC 2 1 1 0 3 2 2 1 0 0 1/1 2/3/6/"),
        ],
        saves: &[("n", "B/3 2/1/2/3/4/5/6/")],
        output: "",
    },
    Row {
        line: "move s t 2 1 2 1",
        files: &[
            ("s.0.0", "B/%DESC 2 1 0 0 4 1 1 1 0 0 2/2 1/10/30/"),
            ("s.1.0", "B/%DESC 2 1 1 0 4 1 1 1 0 0 2/2 1/20/40/"),
        ],
        saves: &[
            ("t.0.0", "B/%DESC 2 1 0 0 4 1 2 1 0 0 2/2 1/10/20/"),
            ("t.1.0", "B/%DESC 2 1 1 0 4 1 2 1 0 0 2/2 1/30/40/"),
        ],
        output: "meets 4 messages 2 copies 2/",
    },
    Row {
        line: "move s t 2 1 2 1 --seed 1",
        files: &[
            ("s.0.0", "B/%DESC 2 1 0 0 4 1 1 1 0 0 2/2 1/10/30/"),
            ("s.1.0", "B/%DESC 2 1 1 0 4 1 1 1 0 0 2/2 1/20/40/"),
        ],
        saves: &[
            ("t.0.0", "B/%DESC 2 1 0 0 4 1 2 1 0 0 2/2 1/10/20/"),
            ("t.1.0", "B/%DESC 2 1 1 0 4 1 2 1 0 0 2/2 1/30/40/"),
        ],
        output: "meets 4 messages 2 copies 2/",
    },
    // a file that is loaded, three saves and a print
    Row {
        line: "run p",
        files: &[
            (
                "p",
                "RANKS 2/GRID w R 1 2/ARRAY a w 2 2 2 1 0 0/LOAD a m/SAVE a f/SAVE a t PIECES/SAVE a g/PRINT a/",
            ),
            ("m", "B/2 2/1/2/3/4/"),
        ],
        saves: &[
            ("f", "B/2 2/1/2/3/4/"),
            ("t.0.0", "B/%DESC 1 2 0 0 2 2 2 1 0 0 2/2 1/1/2/"),
            ("t.0.1", "B/%DESC 1 2 0 1 2 2 2 1 0 0 2/2 1/3/4/"),
            ("g", "B/2 2/1/2/3/4/"),
        ],
        output: "a 2 2/1 3/2 4/",
    },
    // a move between two grids without a common process
    Row {
        line: "run p --seed 1",
        files: &[(
            "p",
            "RANKS 2/MAP g 1 1 0/MAP h 1 1 1/GRID w R 1 2/ARRAY a g 2 2 2 2 0 0/ARRAY b h 2 2 2 2 0 0 5/FILL a 1 1 10 0/FILL b 0 0 0 7/GEMR2D 2 2 a 1 1 b 1 1 w/SAVE b t PIECES/PRINT b/",
        )],
        saves: &[(
            "t.0.0",
            "B/%DESC 1 1 0 0 2 2 2 2 0 0 5/5 2/1/2/7/7/7/11/12/7/7/7/",
        )],
        output: "b 2 2/1 11/2 12/",
    },
    // a sum that wraps
    Row {
        line: "run p --threads",
        files: &[(
            "p",
            "RANKS 2/GRID w R 1 2/MATRIX v 1 1/FILL v 2147483647 0 0 -2147483646/SUM w A H 0 0 v 1 1 1 1/PRINT v 0/PRINT v 1/",
        )],
        saves: &[],
        output: "v rank 0 1 1/-2147483648/v rank 1 1 1/1/",
    },
    Row {
        line: "check p",
        files: &[(
            "p",
            "RANKS 5/GRID w R 1 5/MATRIX v 1 1/BCAST w A I 0 3 v 1 1 1 1/",
        )],
        saves: &[],
        output: "ranks 5/operations 8/messages 4/words 9/",
    },
    // the greatest by absolute value, with the places of its process
    Row {
        line: "run p --seed 7",
        files: &[(
            "p",
            "RANKS 2/GRID w R 1 2/MATRIX v 1 1/MATRIX r 1 1/MATRIX c 1 1/FILL v -5 0 0 10/AMX w A H -1 0 v 1 1 1 1 r c/PRINT v 1/PRINT c 1/",
        )],
        saves: &[],
        output: "v rank 1 1 1/-5/c rank 1 1 1/0/",
    },
];

/// A row over files of several windows.
pub(crate) static LONG: Row = Row {
    line: "split m x 2 1 20000 1",
    files: &[("m", "B/40000 1/**")],
    saves: &[
        (
            "x.0.0",
            "B/%DESC 2 1 0 0 40000 1 20000 1 0 0 20000/20000 1/*",
        ),
        (
            "x.1.0",
            "B/%DESC 2 1 1 0 40000 1 20000 1 0 0 20000/20000 1/*",
        ),
    ],
    output: "",
};

const OLDER: &[u8; 6] = b"older\n";

impl Row {
    /// The files, and older ones under every second of the saved names; None where there is no room for all.
    pub(crate) fn setting(
        &self,
        alloc: Global,
        room: usize,
    ) -> Result<Option<Setting>, AllocError> {
        let mut setting = Setting::new(alloc, room)?;
        for (name, short) in self.files {
            if !setting.put(alloc, *name, *short)? {
                return Ok(None);
            }
        }
        for (k, (name, _short)) in self.saves.iter().enumerate() {
            if k % 2 == 1 && !setting.store.put(*name, OLDER) {
                return Ok(None);
            }
        }
        Ok(Some(setting))
    }

    /// The place of a name among those that are saved; past the last for a file that is only read.
    pub(crate) fn place(&self, name: &str) -> usize {
        let place = self.saves.iter().position(|(saved, _short)| *saved == name);
        place.unwrap_or(self.saves.len())
    }

    /// Whether the saved name at a place has what it had before.
    pub(crate) fn is_older(&self, setting: &Setting, k: usize, name: &str) -> bool {
        if k % 2 == 1 {
            setting.holds(name, OLDER)
        } else {
            setting.store.file(name).is_none()
        }
    }

    /// Whether no saved name was written.
    pub(crate) fn is_untouched(&self, setting: &Setting) -> bool {
        for (k, (name, _short)) in self.saves.iter().enumerate() {
            if !self.is_older(setting, k, *name) {
                return false;
            }
        }
        true
    }

    /// Whether all is saved.
    pub(crate) fn is_saved(&self, alloc: Global, setting: &Setting) -> Result<bool, AllocError> {
        for (name, short) in self.saves {
            if !setting.has(alloc, *name, *short)? {
                return Ok(false);
            }
        }
        Ok(true)
    }

    /// Whether all is saved and printed.
    pub(crate) fn is_done(&self, alloc: Global, setting: &Setting) -> Result<bool, AllocError> {
        Ok(setting.printed(alloc, self.output)? && self.is_saved(alloc, setting)?)
    }
}
