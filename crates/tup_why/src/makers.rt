//! Who makes a path among the rules of a plan.
ghost use Rattle.std.specs.Prelude.{◌≡◌, OnOk, IfOk, IfErr};
ghost use Rattle.tup_closure.specs.Grows.{Grows};
ghost use Rattle.tup_closure.specs.Lists.{IsListed};
ghost use Rattle.tup_why.specs.Makers.{AreMakers, IsOneOf, IsOutput};

use crate::fault::WhyFault;
use crate::numbered::rule_at;
use std::alloc::Global;
use tup_closure::Lists;
use tup_core::Plan;
use tup_path::Path;
use tup_rule::Rule;

/// For each path the planned rules that have it as an output.
pub(crate) fn makers_of(alloc: Global, plan: &Plan) -> Result<Lists<u32>, WhyFault>
    ensures makers { IfOk result (AreMakers plan.now) }
    ensures memory { IfErr result (λ fault. fault ≡ WhyFault.Memory) }
{
    let mut makers = Lists::new(alloc);
    for number in plan.reach.as_slice() {
        add_rule(alloc, &mut makers, plan.rules.as_slice(), *number)?;
    }
    Ok(makers)
}

/// Adds the rule of a number, if there is one, to the makers of its outputs.
fn add_rule(
    alloc: Global,
    makers: &mut Lists<u32>,
    rules: &[Rule],
    number: u32,
) -> Result<(), WhyFault>
    ensures grows { OnOk result (Grows (IsOutput rules.now number)
        (IsListed makers.old) (IsListed makers.new)) }
    ensures memory { IfErr result (λ fault. fault ≡ WhyFault.Memory) }
{
    match rule_at(rules, number) {
        Some(rule) => add_outputs(alloc, makers, rule.outputs.as_slice(), number),
        None => Ok(()),
    }
}

/// Adds a rule to the makers of some paths.
fn add_outputs(
    alloc: Global,
    makers: &mut Lists<u32>,
    outputs: &[Path],
    number: u32,
) -> Result<(), WhyFault>
    ensures grows { OnOk result (Grows (IsOneOf outputs.now number)
        (IsListed makers.old) (IsListed makers.new)) }
    ensures memory { IfErr result (λ fault. fault ≡ WhyFault.Memory) }
{
    for path in outputs {
        makers.add(alloc, path, number)?;
    }
    Ok(())
}
