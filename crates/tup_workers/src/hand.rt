//! What works at a seat.

/// A seat with its runner.
#[derive(Drop)]
pub struct Hand<T, R> {
    pub seat: T,
    pub runner: R,
}
