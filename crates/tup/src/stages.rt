//! The folders that programs leave their files in, before anything is made or removed in them.
use crate::told;
use crate::top::Top;
use std::alloc::Global;
use tup_disk::{Held, Refused, own_folder, stages};
use tup_top::Status;

/// Looks at the folders that programs leave their files in, and that are emptied: each has to be the project's own. Or else gives
/// the exit number, after the reason was printed.
pub(crate) fn check(rt: HostRuntime, alloc: Global, top: &Top) -> Result<(), u8> {
    let root = top.root.as_str();
    match own_folder(&rt, alloc, root) {
        Ok(Some(own)) => looked(rt, stages(&rt, alloc, root, &own)),
        Ok(None) => Ok(()),
        Err(refused) => looked(rt, Err(refused)),
    }
}

/// What a look at a folder answered.
fn looked(rt: HostRuntime, answer: Result<Held, Refused>) -> Result<(), u8> {
    match answer {
        Ok(_held) => Ok(()),
        Err(refused) => Err(refuse(rt, refused)),
    }
}

/// Prints why a folder was refused, and gives the exit number.
fn refuse(rt: HostRuntime, refused: Refused) -> u8 {
    match refused {
        Refused::Memory => told(&rt, Status::Memory),
        Refused::Failed(failure) => {
            // Words that can't be printed change nothing: the exit number says as much.
            drop(eprintln!(rt; "tup: {failure}"));
            told(&rt, Status::SiteFault)
        }
    }
}
