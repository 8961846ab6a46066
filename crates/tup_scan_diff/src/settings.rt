//! What tup.config sets.
ghost use Rattle.std.specs.Prelude.{◌≡◌, ◌⊎◌, Ok, Err, IfOk, IfErr};
ghost use Rattle.std.specs.Bool.{Decides};
ghost use Rattle.tup_vars.specs.Config.{config_of};
ghost use Rattle.tup_scan_diff.specs.Settings.{AreSettings, SetsTo};

use std::alloc::Global;
use tup_graph::GraphFault;
use tup_path::{Bytes, Text};
use tup_stamp::{Stamp, stamp_of};
use tup_vars::{Config, ConfigFault, read_config};

/// What tup.config answers.
#[derive(Drop)]
pub(crate) enum Settings {
    /// There is none: no name is set.
    Absent,
    /// It sets names.
    Set(Config),
    /// It has a fault, so no answer of it stands.
    Faulty,
}

impl Settings {
    /// The settings of a content, where tup.config, if it is a source, was seen with this stamp.
    pub(crate) fn new(
        alloc: Global,
        seen: Option<Stamp>,
        config: &Option<Bytes>,
    ) -> Result<Settings, GraphFault>
        ensures settings { IfOk result (AreSettings config.now seen) }
        ensures memory { IfErr result (λ fault. fault ≡ GraphFault.Memory) }
    {
        let Some(seen) = seen else {
            return Ok(Settings::Absent);
        };
        let Some(content) = config else {
            return Ok(Settings::Faulty);
        };
        if stamp_of(content.as_slice()) != seen {
            return Ok(Settings::Faulty);
        }
        Settings::read(alloc, content)
    }

    /// What a content sets.
    fn read(alloc: Global, content: &Bytes) -> Result<Settings, GraphFault>
        ensures settings { IfOk result (λ settings.
            ((entries : _) × (config_of content.now ≡ Ok entries)
            × (settings ≡ Settings.Set entries))
            ⊎ ((fault : _) × (config_of content.now ≡ Err fault) × (settings ≡ Settings.Faulty))) }
        ensures memory { IfErr result (λ fault. fault ≡ GraphFault.Memory) }
    {
        match read_config(alloc, content) {
            Ok(config) => Ok(Settings::Set(config)),
            Err(ConfigFault::Memory) => Err(GraphFault::Memory),
            Err(_) => Ok(Settings::Faulty),
        }
    }

    /// Whether a name has this value.
    pub(crate) fn sets_to(&self, name: &Text, value: &Option<Text>) -> bool
        ensures { Decides result (SetsTo self.now name.now value.now) }
    {
        match self {
            Settings::Absent => value.is_none(),
            Settings::Set(config) => config.get(name) == value.as_ref(),
            Settings::Faulty => false,
        }
    }
}
