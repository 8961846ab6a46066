//! Who owns which path after a swap.
ghost use Rattle.std.specs.Prelude.{◌≡◌, [], None, fold, IfOk, IfErr, OnOk};
ghost use Rattle.tup_rule_diff.specs.Owners.{AreOwned, made_here as made_here_of, with_output};

use crate::before::number_of;
use std::alloc::Global;
use tup_graph::{GraphFault, Nodes, Owned};
use tup_path::{ByPath, Path};
use tup_record::OwnedState;
use tup_rule::Rule;

/// How paths are owned after a swap: outputs by the first rule that has them, other owned paths by none. States stay, and
/// what is newly owned was never written.
pub(crate) fn owned_now(
    alloc: Global,
    nodes: &Nodes,
    rules: &[Rule],
) -> Result<ByPath<Owned>, GraphFault>
    ensures owned { IfOk result (AreOwned rules.now nodes.now.owned) }
    ensures memory { IfErr result (λ fault. fault ≡ GraphFault.Memory) }
{
    let mut owned = unmade(alloc, nodes)?;
    for (at, rule) in rules.iter().enumerate() {
        add_outputs(&mut owned, rule.outputs.as_slice(), number_of(at)?)?;
    }
    Ok(owned)
}

/// The owned paths, none of which has a maker.
fn unmade(alloc: Global, nodes: &Nodes) -> Result<ByPath<Owned>, GraphFault>
    ensures owned { IfOk result (AreOwned [] nodes.now.owned) }
    ensures memory { IfErr result (λ fault. fault ≡ GraphFault.Memory) }
{
    let mut owned = ByPath::new(alloc);
    for (path, one) in nodes.owned() {
        owned.insert(path.clone()?, unmade_one(one))?;
    }
    Ok(owned)
}

fn unmade_one(owned: &Owned) -> Owned
    ensures { result ≡ record { maker = None; state = owned.now.state } }
{
    Owned {
        maker: None,
        state: owned.state,
    }
}

/// A rule makes its outputs, but for those that another one makes.
fn add_outputs(owned: &mut ByPath<Owned>, outputs: &[Path], number: u32) -> Result<(), GraphFault>
    ensures ok { OnOk result (owned.new ≡ fold (with_output number) owned.old outputs.now) }
    ensures memory { IfErr result (λ fault. fault ≡ GraphFault.Memory) }
{
    for path in outputs {
        add_output(owned, path, number)?;
    }
    Ok(())
}

/// A rule makes an output, unless another one does.
fn add_output(owned: &mut ByPath<Owned>, path: &Path, number: u32) -> Result<(), GraphFault>
    ensures ok { OnOk result (owned.new ≡ with_output number owned.old path.now) }
    ensures memory { IfErr result (λ fault. fault ≡ GraphFault.Memory) }
{
    let one = made_here(owned.get(path).copied(), number);
    owned.insert(path.clone()?, one)?;
    Ok(())
}

/// How a path is owned that was owned so, where a rule has it as an output.
fn made_here(before: Option<Owned>, number: u32) -> Owned
    ensures { result ≡ made_here_of number before }
{
    match before {
        None => Owned {
            maker: Some(number),
            state: OwnedState::Never,
        },
        Some(one) => Owned {
            maker: Some(one.maker.unwrap_or(number)),
            state: one.state,
        },
    }
}
