//! The error of a call that needs memory when there is none.

/// The error of a call for which there was no memory. It returns what the call was given, unchanged.
#[derive(Clone, Debug, Drop)]
pub struct NoRoom<G> {
    /// What the call was given.
    pub given: G,
}
