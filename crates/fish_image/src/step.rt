//! What a step of the reading comes to.

/// What a step of the reading comes to.
#[derive(Clone, Copy, Debug, PartialEq, Eq)]
pub(crate) enum Step {
    /// A region was read that takes so many words.
    Took(usize),
    /// The words end before the region's end.
    Waits,
    /// What stands there is no region of the log.
    Damaged,
}
