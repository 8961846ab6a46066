//! Reporters of several types in one list: each in a box.
use crate::event::Event;
use crate::reporter::{Reporter, TellFailed};
use std::alloc::Global;

impl Reporter for Box<dyn Reporter> {
    ghost told = { λ b. (Reporter-box b).told b.value };

    ghost faults = { λ b. (Reporter-box b).faults b.value };

    fn note(&mut self, alloc: Global, event: &Event) -> Result<(), TellFailed> {
        (**self).note(alloc, event)
    }

    fn told(&self) -> &[Event] {
        (**self).told()
    }

    fn faults(&self) -> u64 {
        (**self).faults()
    }
}
