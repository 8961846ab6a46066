//! The names of stages.
ghost use Rattle.std.specs.Prelude.{◌≡◌, IfOk};
ghost use Rattle.tup_proc_runner.specs.Stages.{name_of, stage_of, printed_of};

use std::alloc::{AllocError, Global};
use tup_path::Text;

/// Where a runner has its stages, and what their names begin with.
#[derive(Drop)]
pub struct Stages {
    /// The folder of the stages of all updates.
    pub above: Text,
    /// The name of the update, which no other has.
    pub update: Text,
    /// The number of the runner in its update.
    pub seat: u32,
}

impl Stages {
    /// The stage of the command behind so many others of this runner.
    pub(crate) fn next(&self, alloc: Global, count: u64) -> Result<Text, AllocError>
        ensures { IfOk result (λ folder. folder ≡ stage_of self.now count) }
    {
        let above = &self.above;
        let name = self.name(alloc, count)?;
        let folder = format!(in alloc; "{above}/{name}")?;
        Ok(Text::from_string(folder))
    }

    /// The name of the stage of the command behind so many others of this runner.
    pub(crate) fn name(&self, alloc: Global, count: u64) -> Result<Text, AllocError>
        ensures { IfOk result (λ name. name ≡ name_of self.now count) }
    {
        let Stages { update, seat, .. } = self;
        let name = format!(in alloc; "{update}-{seat}-{count}")?;
        Ok(Text::from_string(name))
    }

    /// The place beside the stages where what the commands of this runner print may be kept.
    pub fn printed(&self, alloc: Global) -> Result<Text, AllocError>
        ensures { IfOk result (λ place. place ≡ printed_of self.now) }
    {
        let Stages {
            above,
            update,
            seat,
        } = self;
        let place = format!(in alloc; "{above}/{update}-{seat}.printed")?;
        Ok(Text::from_string(place))
    }

    /// Whether what has a name beside the stages is of this update.
    pub(crate) fn have(&self, name: &str) -> bool {
        match name.strip_prefix(self.update.as_str()) {
            Some(rest) => rest.starts_with('-'),
            None => false,
        }
    }
}
