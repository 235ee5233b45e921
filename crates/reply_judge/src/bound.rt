//! What a number in a reply has to be.

/// What a number has to be.
#[derive(Clone, Copy, Debug)]
pub enum Bound {
    /// This number.
    Exactly(u128),
    /// This number, or more.
    AtLeast(u128),
    /// This number, or less.
    AtMost(u128),
    /// A multiple of this number.
    MultipleOf(u128),
    /// No number: `none`.
    Absent,
}
