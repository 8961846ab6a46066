//! What the lines so far have set.
ghost use Rattle.std.specs.Prelude.{◌≡◌, ◌⊎◌, [], Ok, Err};
ghost use Rattle.tup_rule_line.specs.State.{fresh};
ghost use Rattle.tup_query.specs.declared.fault.ReadEnd.TheVariants.{Memory};

use crate::made::Made;
use std::alloc::Global;
use tup_macro::{Bins, Macros};
use tup_query::ReadEnd;
use tup_vars::Vars;

/// Variables, macros, bins and rules so far.
#[derive(Drop)]
pub struct State {
    /// The variables, each with its value.
    pub variables: Vars,
    /// The macros by their names.
    pub macros: Macros,
    /// The bins, each with the outputs that were given to it.
    pub bins: Bins,
    /// The rules, in the order of their lines.
    pub drafts: Made,
}

impl State {
    /// The state before the first line; it is refused for want of memory alone.
    pub fn new(alloc: Global) -> Result<State, ReadEnd>
        ensures { (result ≡ Err Memory) ⊎ (result ≡ Ok fresh) }
    {
        Ok(State {
            variables: no_variables(alloc)?,
            macros: no_macros(alloc)?,
            bins: no_bins(alloc)?,
            drafts: Made::new(alloc),
        })
    }
}

/// The table without a variable.
fn no_variables(alloc: Global) -> Result<Vars, ReadEnd>
    ensures { (result ≡ Err Memory) ⊎ (result ≡ Ok []) }
{
    match Vars::new(alloc) {
        Ok(variables) => Ok(variables),
        Err(_) => Err(ReadEnd::Memory),
    }
}

/// The table without a macro.
fn no_macros(alloc: Global) -> Result<Macros, ReadEnd>
    ensures { (result ≡ Err Memory) ⊎ (result ≡ Ok []) }
{
    match Macros::new(alloc) {
        Ok(macros) => Ok(macros),
        Err(_) => Err(ReadEnd::Memory),
    }
}

/// The table without a bin.
fn no_bins(alloc: Global) -> Result<Bins, ReadEnd>
    ensures { (result ≡ Err Memory) ⊎ (result ≡ Ok []) }
{
    match Bins::new(alloc) {
        Ok(bins) => Ok(bins),
        Err(_) => Err(ReadEnd::Memory),
    }
}
