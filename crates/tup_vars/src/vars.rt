//! The variables of a Tupfile.
ghost use Rattle.std.specs.Prelude.{◌≡◌, ◌⊎◌, [], ◌++◌, ℕ, List, length, true, false, Some, Ok, Err, OnOk, OnErr, IfOk, IfErr, if◌then◌else◌, bytes_eq, string_bytes, unwrap_or};
ghost use Rattle.std.specs.Option.{option_copied};
ghost use Rattle.tup_vars.specs.Table.{look};
ghost use Rattle.tup_vars.specs.Vars.{appending, appended, joint, is_too_long, set_to};
ghost use Rattle.tup_vars.specs.declared.fault.VarFault.TheVariants.{Memory, TooLong};

use crate::fault::VarFault;
use crate::name::is_free;
use crate::table::Table;
use std::alloc::Global;
use std::marker::Model;
use tup_path::{MAX_EXPANDED, Text};

/// Variables and their values, in the order in which they were set first.
#[derive(Drop)]
pub struct Vars {
    pub(crate) table: Table,
}

impl Model for Vars {
    ghost use Rattle.tup_vars.specs.Table.{Entries};

    ghost Value = { Entries };

    ghost view = { λ v. v.table };
}

impl Vars {
    /// No variables.
    pub fn new(alloc: Global) -> Result<Vars, VarFault>
        ensures { (result ≡ Err Memory) ⊎ (result ≡ Ok []) }
    {
        Ok(Vars {
            table: Table::new(alloc),
        })
    }

    /// Sets a variable, whether it was set or not. `BadName` comes where the name isn't one, begins
    /// with `CONFIG_` or is `TUP_CWD`.
    pub fn set(&mut self, alloc: Global, name: &Text, value: Text) -> Result<(), VarFault>
        ensures set { OnOk result (set_to self.old name.now value ≡ Ok self.new) }
        ensures reads { OnOk result ((other : List ℕ) → look self.new other
            ≡ (if bytes_eq other name.now then Some value else look self.old other)) }
        ensures refused { IfErr result (λ fault. (fault ≡ Memory)
            ⊎ (set_to self.old name.now value ≡ Err fault)) }
        ensures unchanged { OnErr result (self.new ≡ self.old) }
    {
        let name = name.as_str();
        if !is_free(name) {
            return Err(VarFault::BadName);
        }
        self.table.put(alloc, name, value)?;
        Ok(())
    }

    /// Puts a text behind the value of a variable, with a space between, or without it where the
    /// variable is unset or empty. `BadName` comes as in `set`, and then `TooLong` where the value
    /// would have more than 1,048,576 bytes.
    pub fn append(&mut self, alloc: Global, name: &Text, value: &Text) -> Result<(), VarFault>
        ensures appended { OnOk result (appending self.old name.now value.now ≡ Ok self.new) }
        ensures refused { IfErr result (λ fault. (fault ≡ Memory)
            ⊎ (appending self.old name.now value.now ≡ Err fault)) }
        ensures unchanged { OnErr result (self.new ≡ self.old) }
    {
        let name = name.as_str();
        if !is_free(name) {
            return Err(VarFault::BadName);
        }
        let more = continuation(alloc, or_empty(self.table.get(name)), value.as_str())?;
        self.table.extend(alloc, name, more.as_str())?;
        Ok(())
    }
}

/// The text, if there is one.
pub(crate) fn or_empty(text: Option<&Text>) -> &str
    ensures { result.now ≡ unwrap_or (option_copied text.entry) [] }
{
    text.map_or("", |text| text.as_str())
}

/// What comes behind a value where a text is put behind it.
fn continuation(alloc: Global, value: &str, text: &str) -> Result<String, VarFault>
    ensures fits { OnOk result (is_too_long (length (appended value.now text.now)) ≡ false) }
    ensures ok { IfOk result (λ more. string_bytes more ≡ joint value.now ++ text.now) }
    ensures refused { IfErr result (λ fault. (fault ≡ Memory)
        ⊎ ((fault ≡ TooLong) × (is_too_long (length (appended value.now text.now)) ≡ true))) }
{
    let joint = joint(value);
    let added = joint.len().saturating_add(text.len());
    if value.len().saturating_add(added) > MAX_EXPANDED {
        return Err(VarFault::TooLong);
    }
    let mut more = String::from_str(alloc, joint)?;
    more.push_str(text)?;
    Ok(more)
}

/// What stands between a value and a text that is put behind it.
fn joint(value: &str) -> &'static str
    ensures { result.now ≡ joint value.now }
{
    if value.is_empty() { "" } else { " " }
}
