//! Answers that are looked at together.

/// The number of the first answer that isn't right, from 0.
pub fn first_wrong(right: &[bool]) -> Option<usize> {
    right.iter().position(|right| !*right)
}
