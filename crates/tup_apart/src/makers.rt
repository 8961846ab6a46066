//! Who makes the outputs that a plan makes.
ghost use Rattle.std.specs.Prelude.{◌≡◌, ◌↔◌, IfOk, OnOk, IsTrue, fold};
ghost use Rattle.tup_apart.specs.Makers.{AreOnlyMakers, IsOnlyMaker, MakesOnly, makers_in, outputs_at, with_maker, with_outputs};

use std::alloc::{AllocError, Global};
use tup_core::Plan;
use tup_path::{ByPath, Path};
use tup_rule::Rule;

/// The outputs of the rules that a plan runs, with a rule that makes each.
pub(crate) fn makers_of(alloc: Global, plan: &Plan) -> Result<ByPath<u32>, AllocError>
    ensures { IfOk result (λ makers. makers ≡ makers_in plan.now) }
{
    let mut makers = ByPath::new(alloc);
    for number in plan.reach.as_slice() {
        add_rule(&mut makers, plan.rules.as_slice(), *number)?;
    }
    Ok(makers)
}

/// The rule of a number makes its outputs.
fn add_rule(makers: &mut ByPath<u32>, rules: &[Rule], number: u32) -> Result<(), AllocError>
    ensures { OnOk result (makers.new ≡ with_outputs rules.now makers.old number) }
{
    add_outputs(makers, outputs_of(rules, number), number)
}

fn add_outputs(makers: &mut ByPath<u32>, outputs: &[Path], number: u32) -> Result<(), AllocError>
    ensures { OnOk result (makers.new ≡ fold (with_maker number) makers.old outputs.now) }
{
    for path in outputs {
        makers.insert(path.clone()?, number)?;
    }
    Ok(())
}

/// The outputs of the rule of a number; none where no rule has it.
fn outputs_of(rules: &[Rule], number: u32) -> &[Path]
    ensures { result.now ≡ outputs_at rules.now number }
{
    match rules.get(number as usize) {
        Some(rule) => rule.outputs.as_slice(),
        None => &[],
    }
}

/// Whether what the rules of some numbers make of these outputs no other rule makes.
pub(crate) fn have_one_maker(makers: &ByPath<u32>, rules: &[Rule], numbers: &[u32]) -> bool
    ensures { IsTrue result ↔ AreOnlyMakers makers.now rules.now numbers.now }
{
    for number in numbers {
        if !makes_only(makers, rules, *number) {
            return false;
        }
    }
    true
}

/// Whether the rule of a number makes those of its outputs that are among these.
fn makes_only(makers: &ByPath<u32>, rules: &[Rule], number: u32) -> bool
    ensures { IsTrue result ↔ MakesOnly makers.now rules.now number }
{
    outputs_of(rules, number)
        .iter()
        .all(|path| is_only_maker(makers, path, number))
}

fn is_only_maker(makers: &ByPath<u32>, path: &Path, number: u32) -> bool
    ensures { IsTrue result ↔ IsOnlyMaker makers.now number path.now }
{
    match makers.get(path) {
        Some(maker) => *maker == number,
        None => true,
    }
}
