//! The settings of tup.config.
ghost use Rattle.std.specs.Prelude.{◌≡◌, ◌⊎◌, ◌↔◌, ℕ, List, Some, Ok, Err, IfOk, OnOk, IfErr, option_map, position};
ghost use Rattle.std.specs.Option.{option_copied};
ghost use Rattle.std.specs.Str.Lines.{lines as cut_lines};
ghost use Rattle.std.specs.List.{filter_map};
ghost use Rattle.tup_lex.specs.Line.{is_long};
ghost use Rattle.tup_vars.specs.Table.{look};
ghost use Rattle.tup_vars.specs.Config.{set, unset, IsSet, IsUnset, setting, last_of, with_line, short_settings, settings, config_of};
ghost use Rattle.tup_vars.specs.declared.fault.ConfigFault.TheVariants.{Memory};

use crate::fault::ConfigFault;
use crate::name::is_name;
use crate::table::Table;
use std::alloc::Global;
use std::marker::Model;
use std::str;
use tup_lex::{ParseKind, is_long, last_line, line_number, says_something, trimmed};
use tup_path::{Bytes, Text};

/// What tup.config sets, in the order in which the names came first.
#[derive(Drop)]
pub struct Config {
    table: Table,
}

impl Model for Config {
    ghost use Rattle.tup_vars.specs.Table.{Entries};

    ghost Value = { Entries };

    ghost view = { λ c. c.table };
}

impl Config {
    /// The text that a name is set to. The name stands without its `CONFIG_`.
    pub fn get(&self, name: &Text) -> Option<&Text>
        ensures { option_copied result ≡ look self.now name.now }
    {
        self.table.get(name.as_str())
    }
}

/// The settings of a tup.config.
///
/// A file that isn't UTF-8 is refused as `NotUtf8` at the line of its first wrong byte, and else one
/// with a line of more than 65,535 bytes as `LineTooLong` at the first such, and else one with a line
/// that sets nothing, isn't empty and is no comment as `ConfigLine` at the first such.
pub fn read_config(alloc: Global, file: &Bytes) -> Result<Config, ConfigFault>
    ensures config { (result ≡ Err Memory) ⊎ (result ≡ config_of file.now) }
    ensures last { IfOk result (λ config. (name : List ℕ) →
        look config name ≡ last_of (filter_map setting (cut_lines file.now)) name) }
{
    let bytes = file.as_slice();
    match str::from_utf8(bytes) {
        Ok(text) => said(alloc, text),
        Err(error) => Err(ConfigFault::At {
            line: last_line(&bytes[..error.valid_up_to()]),
            kind: ParseKind::NotUtf8,
        }),
    }
}

/// Laws of the lines of a tup.config: the two forms that set a name are just the lines which read so.
pub fn config_lines()
    ensures set { (line name value : List ℕ) →
        (set line ≡ Some (name, value)) ↔ IsSet line name value }
    ensures unset { (line name value : List ℕ) →
        (unset line ≡ Some (name, value)) ↔ IsUnset line name value }
{}

fn said(alloc: Global, text: &str) -> Result<Config, ConfigFault>
    ensures { (result ≡ Err Memory) ⊎ (result ≡ settings (cut_lines text.now)) }
{
    match first_long(text) {
        Some(before) => Err(ConfigFault::At {
            line: line_number(before),
            kind: ParseKind::LineTooLong,
        }),
        None => short_settings(alloc, text),
    }
}

/// How many lines stand before the first that is too long.
fn first_long(text: &str) -> Option<usize>
    ensures { result ≡ position is_long (cut_lines text.now) }
{
    text.lines().position(|line| is_long(line))
}

/// What lines set of which none is too long.
fn short_settings(alloc: Global, text: &str) -> Result<Config, ConfigFault>
    ensures { (result ≡ Err Memory) ⊎ (result ≡ short_settings (cut_lines text.now)) }
{
    let mut table = Table::new(alloc);
    let mut number = 0u32;
    for line in text.lines() {
        number = number.saturating_add(1);
        read_line(alloc, &mut table, number, line)?;
    }
    Ok(Config { table })
}

/// Takes what the line of this number sets into a table. One that may not stand there is refused.
fn read_line(alloc: Global, table: &mut Table, number: u32, line: &str) -> Result<(), ConfigFault>
    ensures read { OnOk result (with_line table.old number line.now ≡ Ok table.new) }
    ensures refused { IfErr result (λ fault. (fault ≡ Memory)
        ⊎ (with_line table.old number line.now ≡ Err fault)) }
{
    if let Some((name, value)) = setting(line) {
        table.put(alloc, name, Text::from_str(alloc, value)?)?;
    } else if says_something(trimmed(line)) {
        return Err(ConfigFault::At {
            line: number,
            kind: ParseKind::ConfigLine,
        });
    }
    Ok(())
}

/// The name and the value that a line sets.
fn setting(line: &str) -> Option<(&str, &str)>
    ensures { option_map (λ cut. (cut.0.now, cut.1.now)) result ≡ setting line.now }
{
    let line = trimmed(line);
    set(line).or_else(|| unset(line))
}

/// Those of a line `CONFIG_NAME=value`.
fn set(line: &str) -> Option<(&str, &str)>
    ensures { option_map (λ cut. (cut.0.now, cut.1.now)) result ≡ set line.now }
{
    let (name, value) = line.strip_prefix("CONFIG_")?.split_once('=')?;
    if is_name(name) {
        Some((name, trimmed(value)))
    } else {
        None
    }
}

/// Those of a line `# CONFIG_NAME is not set`.
fn unset(line: &str) -> Option<(&str, &str)>
    ensures { option_map (λ cut. (cut.0.now, cut.1.now)) result ≡ unset line.now }
{
    let (name, said) = line.strip_prefix("# CONFIG_")?.split_once(' ')?;
    if is_name(name) && said == "is not set" {
        Some((name, "n"))
    } else {
        None
    }
}
