//! A grid and its blocks.

// A grid of `p` by `q` processes, and blocks of `mb` by `nb`.
#[derive(Clone, Copy)]
pub(crate) struct Target {
    pub(crate) p: u32,
    pub(crate) q: u32,
    pub(crate) mb: u32,
    pub(crate) nb: u32,
}
