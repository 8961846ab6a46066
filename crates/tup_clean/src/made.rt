//! The files that rules make.
ghost use Rattle.std.specs.Prelude.{IfOk};
ghost use Rattle.tup_access.specs.Generated.{IsGenerated};

use std::alloc::{AllocError, Global};
use std::collections::BTreeSet;
use tup_access::add_paths;
use tup_path::Path;
use tup_rule::Rule;

/// The outputs of all rules.
pub fn generated(alloc: Global, rules: &[Rule]) -> Result<BTreeSet<Path>, AllocError>
    ensures { IfOk result (λ set. IsGenerated rules.now set) }
{
    let mut set = BTreeSet::new(alloc);
    for at in (0..rules.len()).rev() {
        add_paths(&mut set, rules[at].outputs.as_slice())?;
    }
    Ok(set)
}
