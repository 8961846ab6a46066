//! Conditionals that are open.
ghost use Rattle.std.specs.Prelude.{◌≡◌, ◌⊎◌, [], IfErr, OnOk, OnErr, Ok, Err, MatchResult};
ghost use Rattle.tup_vars.specs.Branches.{entered, turned, left, all_on, ended};
ghost use Rattle.tup_vars.specs.declared.fault.VarFault.TheVariants.{Memory};

use crate::fault::VarFault;
use std::alloc::Global;
use std::marker::Model;

/// How many conditionals may be open at once.
pub const MAX_OPEN: usize = 64;

/// An open conditional.
#[derive(Clone, Copy)]
pub struct Level {
    /// The line in which it begins.
    pub line: u32,
    /// Whether the lines behind its last `if` or `else` count.
    pub on: bool,
    /// Whether its `else` was there already.
    pub other: bool,
}

/// The conditionals of a file that are open, from the outermost on.
#[derive(Drop)]
pub struct Branches {
    levels: Vec<Level>,
}

impl Model for Branches {
    ghost use Rattle.std.specs.Prelude.{List};
    ghost use Rattle.tup_vars.specs.declared.branches.Level.{Level};

    ghost Value = { List Level };

    ghost view = { λ b. b.levels.items };
}

impl Branches {
    /// No conditional is open.
    pub fn new(alloc: Global) -> Branches
        ensures { result ≡ [] }
    {
        Branches {
            levels: Vec::new(alloc),
        }
    }

    /// Opens a conditional that begins in this line and holds or doesn't. `TooDeep` comes where 64
    /// are open already.
    pub fn enter(&mut self, line: u32, on: bool) -> Result<(), VarFault>
        ensures entered { OnOk result (entered self.old line on ≡ Ok self.new) }
        ensures refused { IfErr result (λ fault. (fault ≡ Memory)
            ⊎ (entered self.old line on ≡ Err fault)) }
        ensures unchanged { OnErr result (self.new ≡ self.old) }
    {
        if self.levels.len() >= MAX_OPEN {
            return Err(VarFault::TooDeep);
        }
        self.levels.push(Level {
            line,
            on,
            other: false,
        })?;
        Ok(())
    }

    /// Goes over to the `else` of the innermost conditional. `StrayElse` comes where none is open,
    /// and where its `else` was there already.
    pub fn other(&mut self) -> Result<(), VarFault>
        ensures turned { MatchResult result
            (λ _. turned self.old ≡ Ok self.new) (λ fault. turned self.old ≡ Err fault) }
        ensures unchanged { OnErr result (self.new ≡ self.old) }
    {
        match self.levels.last() {
            Some(level) if !level.other => {
                let turned = Level {
                    line: level.line,
                    on: !level.on,
                    other: true,
                };
                let last = self.levels.len() - 1;
                self.levels[last] = turned;
                Ok(())
            }
            _ => Err(VarFault::StrayElse),
        }
    }

    /// Closes the innermost conditional. `StrayEndif` comes where none is open.
    pub fn leave(&mut self) -> Result<(), VarFault>
        ensures left { MatchResult result
            (λ _. left self.old ≡ Ok self.new) (λ fault. left self.old ≡ Err fault) }
        ensures unchanged { OnErr result (self.new ≡ self.old) }
    {
        match self.levels.pop() {
            Some(_) => Ok(()),
            None => Err(VarFault::StrayEndif),
        }
    }

    /// Whether all open conditionals hold, so that lines count.
    pub fn on(&self) -> bool
        ensures { result ≡ all_on self.now }
    {
        self.levels.iter().all(|level| level.on)
    }

    /// Whether a file may end here. `MissingEndif` comes where a conditional is open, with the line
    /// of the outermost.
    pub fn end(&self) -> Result<(), VarFault>
        ensures { result ≡ ended self.now }
    {
        match self.levels.first() {
            Some(outermost) => Err(VarFault::MissingEndif {
                line: outermost.line,
            }),
            None => Ok(()),
        }
    }
}
