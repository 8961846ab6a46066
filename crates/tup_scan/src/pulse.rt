//! Who is told how far a scan is.

/// Who is told how far a scan is. A call returns.
pub trait Pulse: Sync {
    /// The file at this place in the list of all files, from 0, is digested next, on the thread that calls.
    fn pass(&self, file: u32);
}

/// Nobody is told.
#[derive(Clone, Copy)]
pub struct Still;

impl Pulse for Still {
    fn pass(&self, _file: u32) {}
}
