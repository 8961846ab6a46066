//! What the tup.config of the top sets.
ghost use Rattle.std.specs.Prelude.{◌≡◌, codes, [], ◌∷◌, IfOk, IfErr};
ghost use Rattle.tup_vars.specs.Config.{config_of};
ghost use Rattle.tup_readings.specs.Sources.{settings_of};
ghost use Rattle.tup_readings.specs.Readings.{IsConfig};

use crate::fault::FoldersFault;
use crate::sources::Sources;
use std::alloc::Global;
use tup_path::{Bytes, Path};
use tup_query::ParseFault;
use tup_vars::{Config, ConfigFault, read_config};

/// What tup.config sets; without the file nothing is set.
pub fn settings(alloc: Global, sources: &Sources<'_>) -> Result<Config, FoldersFault>
    ensures { IsConfig (settings_of sources.now) result }
{
    let path = config_path(alloc)?;
    match sources.content(&path) {
        Some(content) => read(alloc, path, content),
        None => {
            let nothing = Bytes::new(Vec::new(alloc));
            read(alloc, path, &nothing)
        }
    }
}

/// What this content of tup.config sets.
fn read(alloc: Global, path: Path, content: &Bytes) -> Result<Config, FoldersFault>
    requires { path ≡ codes "tup.config" ∷ [] }
    ensures { IsConfig (config_of content.now) result }
{
    match read_config(alloc, content) {
        Ok(settings) => Ok(settings),
        Err(ConfigFault::At { line, kind }) => Err(FoldersFault::Parse(ParseFault {
            dir: Path::top(alloc),
            file: path,
            line,
            kind,
        })),
        Err(ConfigFault::Memory) => Err(FoldersFault::Memory),
    }
}

/// `tup.config` at the top.
fn config_path(alloc: Global) -> Result<Path, FoldersFault>
    ensures path { IfOk result (λ path. path ≡ codes "tup.config" ∷ []) }
    ensures memory { IfErr result (λ fault. fault ≡ FoldersFault.Memory) }
{
    match Path::from_top(alloc, "tup.config") {
        Ok(path) => Ok(path),
        Err(_) => Err(FoldersFault::Memory),
    }
}
