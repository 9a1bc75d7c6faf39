//! How far a digest came.

/// How many records were digested, whether memory ran out before the next, and whether that, or a next group that is longer than
/// what is left of the most, ended it before all were.
#[derive(Clone, Copy, Debug)]
pub(crate) struct Progress {
    pub(crate) count: usize,
    pub(crate) refused: bool,
    pub(crate) ended: bool,
}
