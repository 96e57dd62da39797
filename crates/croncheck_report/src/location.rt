//! Where a line stands.

/// Where a line stands.
#[derive(Clone, Copy)]
pub struct Location<'n> {
    /// The name of its file, as it is shown.
    pub file: &'n str,
    /// Its number, from 1.
    pub line: u64,
}
