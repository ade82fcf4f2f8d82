//! The lines of a grid program.

use crate::ident::Ident;
use crate::map_ranks::MapRanks;
use pack_words::{Diag, Uplo};
use proc_grid::{Order, Scope};
use route_tree::Top;

/// An M by N part of a local array from the place (i, j), counted from 1.
#[derive(Clone, Copy, Debug, PartialEq, Eq)]
pub struct Area {
    pub array: u32,
    pub i: u32,
    pub j: u32,
    pub m: u32,
    pub n: u32,
}

/// The arguments of a move.
#[derive(Clone, Copy, Debug, PartialEq, Eq)]
pub struct Mr {
    pub m: i32,
    pub n: i32,
    pub a: u32,
    pub ia: i32,
    pub ja: i32,
    pub b: u32,
    pub ib: i32,
    pub jb: i32,
    pub grid: u32,
}

/// A line. Grids and arrays stand there by number, in the order of declaration: grids by themselves, arrays and matrices
/// together.
#[derive(Debug, Drop)]
pub enum Line {
    Ranks {
        n: u32,
    },
    Grid {
        order: Order,
        nprow: u32,
        npcol: u32,
    },
    Map {
        nprow: u32,
        npcol: u32,
        ranks: MapRanks,
    },
    Array {
        name: Ident,
        grid: u32,
        m: i32,
        n: i32,
        mb: i32,
        nb: i32,
        rsrc: i32,
        csrc: i32,
        lld: Option<i32>,
    },
    Matrix {
        name: Ident,
        lld: u32,
        cols: u32,
    },
    Load {
        array: u32,
        file: Ident,
    },
    Fill {
        array: u32,
        a: i32,
        b: i32,
        c: i32,
        d: i32,
    },
    Send {
        grid: u32,
        p: u32,
        q: u32,
        area: Area,
        rdest: u32,
        cdest: u32,
        tri: Option<(Uplo, Diag)>,
    },
    Recv {
        grid: u32,
        p: u32,
        q: u32,
        area: Area,
        rsrc: u32,
        csrc: u32,
        tri: Option<(Uplo, Diag)>,
    },
    Bcast {
        grid: u32,
        scope: Scope,
        top: Top,
        rsrc: u32,
        csrc: u32,
        area: Area,
        tri: Option<(Uplo, Diag)>,
    },
    Sum {
        grid: u32,
        scope: Scope,
        top: Top,
        dest: Option<(u32, u32)>,
        area: Area,
    },
    Amx {
        grid: u32,
        scope: Scope,
        top: Top,
        dest: Option<(u32, u32)>,
        area: Area,
        rc: Option<(u32, u32)>,
    },
    Amn {
        grid: u32,
        scope: Scope,
        top: Top,
        dest: Option<(u32, u32)>,
        area: Area,
        rc: Option<(u32, u32)>,
    },
    Barrier {
        grid: u32,
        scope: Scope,
    },
    Gemr2d {
        mr: Mr,
    },
    Trmr2d {
        uplo: char,
        diag: char,
        mr: Mr,
    },
    Save {
        array: u32,
        file: Ident,
    },
    SavePieces {
        array: u32,
        prefix: Ident,
    },
    PrintArray {
        array: u32,
    },
    PrintMatrix {
        array: u32,
        rank: u32,
    },
}

/// A line with its number in the text, counted from 1.
#[derive(Debug, Drop)]
pub struct Numbered {
    pub number: u32,
    pub line: Line,
}
