//! What a seat of the table knows.
use std::collections::LinkedList;

/// What a seat of the table knows. No value of it is made.
pub struct View<T> {
    /// Numbers of seats, each with the value as the seat of that number left it.
    pub lasts: LinkedList<(u64, T)>,
    /// How many numbers were drawn; 0 at each seat but the first.
    pub count: u64,
    /// The value that it found, while it holds the lock.
    pub found: Option<T>,
}
