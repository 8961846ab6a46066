//! Answers that are found before the rows of a file are compared with them.
use std::alloc::Global;
use tup_rows::{Answers, RowFault, Words};

/// The answers of the rows of a file. What finds them has to start threads, and a trait's method can't know that its handle may be
/// shared. So they are found first, and then told.
#[derive(Drop)]
pub(crate) struct Found {
    /// Those that are left, the next one last.
    left: Vec<Words>,
}

impl Found {
    /// These answers, in the order of their rows.
    pub(crate) fn new(mut answers: Vec<Words>) -> Found {
        answers.reverse();
        Found { left: answers }
    }
}

impl Answers for Found {
    fn answer(&mut self, _alloc: Global, _call: &str, said: &Words) -> Result<Words, RowFault> {
        // Who counts the arguments takes them all: which were asked for isn't known any more.
        let _ = said.len();
        match self.left.pop() {
            Some(answer) => Ok(answer),
            None => Err(RowFault::NoSuchCall),
        }
    }
}
