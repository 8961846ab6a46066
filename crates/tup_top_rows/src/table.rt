//! What came of the cases of a table.
use std::alloc::Global;
use tup_rows::{RowFault, Words};

/// How many cases there were in which something was lost or torn, if that is counted; how many ended with each exit number; and
/// which are wrong.
#[derive(Drop)]
pub(crate) struct Table {
    torn: Option<u64>,
    exits: [u64; 16],
    wrong: Words,
}

impl Table {
    pub(crate) fn new(alloc: Global) -> Table {
        Table {
            torn: Some(0),
            exits: [0; 16],
            wrong: Words::new(alloc),
        }
    }

    /// Of stopped updates by so many runners. What a crash finds under several depends on their order, so it isn't counted then.
    pub(crate) fn of_runners(alloc: Global, runners: u64) -> Table {
        let mut table = Table::new(alloc);
        if runners > 1 {
            table.torn = None;
        }
        table
    }

    /// Notes whether something was lost or torn.
    pub(crate) fn tear(&mut self, is_torn: bool) {
        if is_torn {
            self.torn = self.torn.map(|torn| torn.saturating_add(1));
        }
    }

    /// Takes in how a case ended.
    pub(crate) fn take(&mut self, exit: u8) {
        if let Some(count) = self.exits.get_mut(usize::from(exit)) {
            *count = count.saturating_add(1);
        }
    }

    /// Names a case that is wrong.
    pub(crate) fn blame(&mut self, alloc: Global, said: &Words, way: &str, at: u64, exit: u8) {
        match format!(in alloc; "{way} at {at}: exit {exit}") {
            Ok(case) => self.wrong.put(alloc, case.as_bytes()),
            Err(_) => said.fail(RowFault::Memory),
        }
    }

    /// How many places there were, in how many cases something was lost or torn if that is counted, each exit number with that of
    /// its cases, and the cases that are wrong.
    pub(crate) fn words(&self, alloc: Global, places: u64) -> Words {
        let mut words = Words::all(alloc, &[places]);
        if let Some(torn) = self.torn {
            words.show_all(alloc, &[torn]);
        }
        for (exit, count) in self.exits.iter().enumerate() {
            if *count > 0 {
                words.show_all(alloc, &[exit as u64, *count]);
            }
        }
        for case in self.wrong.as_slice() {
            words.put(alloc, case);
        }
        words
    }
}
