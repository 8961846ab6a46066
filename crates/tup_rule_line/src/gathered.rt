//! What input words give, with a set of the files.
ghost use Rattle.std.specs.Prelude.{◌≡◌, ◌++◌, ◌∷◌, [], IfOk, OnOk, if◌then◌else◌, fold};
ghost use Rattle.tup_rule_line.specs.Found as specs;

use crate::found::{Found, Input, Inputs, add_groups};
use indexmap::IndexSet;
use std::alloc::{AllocError, Global};
use std::marker::Model;
use tup_path::Path;
use tup_rule::GroupRefs;

/// What words give, with a set of the files. Contracts see what they give.
#[derive(Drop)]
pub(crate) struct Gathered {
    found: Found,
    set: IndexSet<Path>,
}

impl Model for Gathered {
    ghost use Rattle.tup_rule_line.specs.declared.found.Found.{Found as Given};
    ghost use Rattle.tup_rule_line.specs.Found.{HasFiles};

    ghost Value = { Given };

    ghost view = { λ gathered. gathered.found };

    ghost invariant = { λ gathered. HasFiles gathered.set.keys gathered.found.inputs };
}

impl Gathered {
    /// Nothing was found yet.
    pub(crate) fn new(alloc: Global) -> Gathered
        ensures { result ≡ specs.nothing_found }
    {
        Gathered {
            found: Found::new(alloc),
            set: IndexSet::new(alloc),
        }
    }

    /// What was found, with what more words give behind it.
    pub(crate) fn with(self, more: Found) -> Result<Gathered, AllocError>
        ensures { IfOk result (λ gathered. gathered ≡ specs.with_found self more) }
    {
        let Found { inputs, groups } = more;
        let gathered = self.with_inputs(inputs)?;
        gathered.with_groups(groups)
    }

    /// Inputs behind those that were found, each unless its path is there.
    fn with_inputs(self, inputs: Inputs) -> Result<Gathered, AllocError>
        ensures { IfOk result (λ gathered. gathered ≡ fold specs.with_one self inputs) }
    {
        let mut gathered = self;
        for input in inputs.into_vec() {
            gathered = gathered.with_input(input)?;
        }
        Ok(gathered)
    }

    /// An input behind those that were found, unless its path is there.
    fn with_input(self, input: Input) -> Result<Gathered, AllocError>
        ensures { IfOk result (λ gathered. gathered ≡ specs.with_one self input) }
    {
        let Gathered { mut found, mut set } = self;
        let new = set.insert(input.path.clone()?)?;
        add_new(&mut found.inputs, new, input)?;
        Ok(Gathered { found, set })
    }

    /// Groups behind those that were found.
    fn with_groups(self, groups: GroupRefs) -> Result<Gathered, AllocError>
        ensures { IfOk result (λ gathered. gathered ≡ specs.with_groups self groups) }
    {
        let Gathered { mut found, set } = self;
        add_groups(&mut found.groups, groups)?;
        Ok(Gathered { found, set })
    }

    /// What was found, alone.
    pub(crate) fn into_found(self) -> Found
        ensures { result ≡ self }
    {
        self.found
    }
}

/// Adds an input at the end, if it is new.
fn add_new(inputs: &mut Inputs, new: bool, input: Input) -> Result<(), AllocError>
    ensures { OnOk result (inputs.new
        ≡ (if new then inputs.old ++ input ∷ [] else inputs.old)) }
{
    if new {
        inputs.push(input)?;
    }
    Ok(())
}
