//! The head of a piece: where it belongs.
ghost use Rattle.std.specs.Prelude.{◌≡◌};
ghost use Rattle.piece_grammar.specs.PlainPiece.{head_numbers};
ghost use Rattle.piece_file.specs.HeadView.{head_view};

/// The numbers of the line `%DESC P Q p q M N MB NB RSRC CSRC LLD`: the rows and columns of the process grid, the process's
/// row and column, the rows and columns of the whole matrix, those of a block, the process row and column of the first block,
/// and the leading dimension of the process's local array.
#[derive(Clone, Copy, Debug, PartialEq, Eq)]
pub struct Head {
    pub nprow: u32,
    pub npcol: u32,
    pub prow: u32,
    pub pcol: u32,
    pub m: u32,
    pub n: u32,
    pub mb: u32,
    pub nb: u32,
    pub rsrc: u32,
    pub csrc: u32,
    pub lld: u32,
}

impl Head {
    // The numbers in the order of the line.
    pub(crate) fn numbers(&self) -> [u32; 11]
        ensures { result ≡ head_numbers (head_view self.now) }
    {
        [
            self.nprow, self.npcol, self.prow, self.pcol, self.m, self.n, self.mb, self.nb,
            self.rsrc, self.csrc, self.lld,
        ]
    }
}
