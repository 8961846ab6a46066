//! The core of an update: which rule may be run next, what a command that runs is answered, and what its end
//! leaves, as a machine that takes one event after another. It knows no store, no site and no thread.
//!
//! The machine stands as definitions: `specs/Step.antt` says which events are enabled in a state and what each
//! leaves, `specs/Run.antt` what a run is, and `specs/Honest.antt` which runs are honest. `Core` is such a machine:
//! it takes just the events that are enabled, and is in the state that each leaves (`specs/Machine.antt`). The
//! functions of `laws` publish what every run keeps, in the words of `specs/Laws.antt`.
#![tactic(auto)]

mod ending;
mod event;
mod fault;
mod files;
mod laws;
mod links;
mod machine;
mod outputs;
mod plan;
mod running;
mod same;
mod start;
mod waiting;
mod walk;

pub use event::{Cause, CoreEvent, Stamps};
pub use fault::CoreFault;
pub use laws::{
    all_are_claimed, asks_stand, bad_is_last, claimed_once, claims_in_order, ends_are_clean,
    ends_are_verdicts, ends_in_clean, never_stuck, settled_are_clean, unreached_stand,
};
pub use machine::Core;
pub use plan::{Numbers, Plan};
pub use running::{Running, StampAsks};
