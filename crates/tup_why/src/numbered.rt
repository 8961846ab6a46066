//! Rules by their numbers.
ghost use Rattle.std.specs.Prelude.{◌≡◌, slice_get};
ghost use Rattle.std.specs.Option.{option_copied};

use tup_rule::Rule;

/// The rule of a number, if there is one.
pub(crate) fn rule_at(rules: &[Rule], number: u32) -> Option<&Rule>
    ensures { option_copied result ≡ slice_get rules.now number }
{
    rules.get(number as usize)
}
