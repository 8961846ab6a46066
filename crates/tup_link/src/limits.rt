//! How many commands there may be.
ghost use Rattle.tup_link.specs.Faults.{Tells, too_many_commands};

use crate::fault::{LinkFault, What};

/// How many commands a project may have.
pub const MAX_COMMANDS: usize = 65_536;

/// How many paths the rules of a project may declare.
pub const MAX_LINKS: u64 = 4_194_304;

/// Whether there are few enough commands.
pub(crate) fn few_commands(count: usize) -> Result<(), LinkFault>
    ensures { Tells (too_many_commands count) result }
{
    if count > MAX_COMMANDS {
        return Err(LinkFault::TooMany {
            what: What::Commands,
            number: count as u64,
        });
    }
    Ok(())
}
