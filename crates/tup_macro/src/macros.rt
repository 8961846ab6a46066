//! Macros by their names.
ghost use Rattle.std.specs.Prelude.{◌≡◌, ◌⊎◌, ◌↔◌, ◌++◌, ◌∷◌, [], Ok, Err, Some, None, IsSome, IfOk, IfErr, OnOk, OnErr};
ghost use Rattle.tup_macro.specs.Macros.{macro_of, Defines};

use crate::fault::MacroFault;
use indexmap::IndexMap;
use std::alloc::Global;
use std::marker::Model;
use tup_path::{Text, Texts};

/// What a macro line says behind its name.
#[derive(Drop)]
pub struct Macro {
    /// The words of its order-only inputs, in order.
    pub order: Texts,
    /// The command.
    pub command: Text,
    /// The words of its outputs, in order.
    pub outputs: Texts,
    /// The words of its extra outputs, in order.
    pub extra: Texts,
}

/// Macros by their names, in the order of their definitions. Contracts see the list of names with
/// their macros.
#[derive(Drop)]
pub struct Macros {
    macros: IndexMap<Text, Macro>,
}

impl Model for Macros {
    ghost use Rattle.std.specs.Prelude.{List, ℕ};
    ghost use Rattle.tup_macro.specs.declared.macros.Macro.{Macro};

    ghost Value = { List (List ℕ × Macro) };

    ghost view = { λ table. table.macros.entries };
}

impl Macros {
    /// The table without a macro; it takes no memory.
    pub fn new(alloc: Global) -> Result<Macros, MacroFault>
        ensures { result ≡ Ok [] }
    {
        Ok(Macros {
            macros: IndexMap::new(alloc),
        })
    }

    /// Defines a macro. `DefinedTwice` comes just where the name has one. After a refusal the table
    /// is as it was.
    pub fn define(&mut self, name: &Text, body: Macro) -> Result<(), MacroFault>
        ensures defined { OnOk result (self.new ≡ self.old ++ (name.now, body) ∷ []) }
        ensures found { OnOk result (Defines self.old self.new name.now body) }
        ensures twice { (result ≡ Err MacroFault.DefinedTwice)
            ↔ IsSome (macro_of self.old name.now) }
        ensures refused { IfErr result (λ fault.
            (fault ≡ MacroFault.DefinedTwice) ⊎ (fault ≡ MacroFault.Memory)) }
        ensures kept { OnErr result (self.new ≡ self.old) }
    {
        if self.macros.contains_key(name) {
            return Err(MacroFault::DefinedTwice);
        }
        self.macros.insert(name.clone()?, body)?;
        Ok(())
    }

    /// The macro of a name. `NoSuchMacro` comes just where it has none, and nothing else is refused.
    pub fn get(&self, name: &Text) -> Result<&Macro, MacroFault>
        ensures found { IfOk result (λ body. macro_of self.now name.now ≡ Some body.now) }
        ensures refused { IfErr result (λ fault.
            (fault ≡ MacroFault.NoSuchMacro) × (macro_of self.now name.now ≡ None)) }
    {
        match self.macros.get(name) {
            Some(body) => Ok(body),
            None => Err(MacroFault::NoSuchMacro),
        }
    }
}
