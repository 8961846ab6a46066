//! How a reason is printed.
ghost use Rattle.std.specs.Prelude.{◌≡◌, ◌++◌, OnOk, IfOk, slice_get, string_bytes};
ghost use Rattle.std.specs.List.{flat_map};
ghost use Rattle.tup_rule.specs.Rule.{label_of};
ghost use Rattle.tup_why.specs.Shown as specs;

use crate::numbered::rule_at;
use crate::reason::{Link, Reason, Root};
use std::alloc::{AllocError, Global};
use tup_path::Text;
use tup_rule::Rule;

/// The chain of a reason of a plan with these rules, `ROOT > .. > DIR: LABEL`.
pub fn shown(alloc: Global, rules: &[Rule], reason: &Reason) -> Result<Text, AllocError>
    ensures { IfOk result (λ text. text ≡ specs.chain_text rules.now reason.now) }
{
    let mut text = String::new(alloc);
    add_root(&mut text, rules, &reason.root)?;
    add_links(&mut text, rules, reason.links.as_slice())?;
    Ok(Text::from_string(text))
}

/// Adds where a chain begins.
fn add_root(text: &mut String, rules: &[Rule], root: &Root) -> Result<(), AllocError>
    ensures { OnOk result (string_bytes text.new
        ≡ string_bytes text.old ++ specs.root_text rules.now root.now) }
{
    match root {
        Root::Changed(path) => write!(text, "changed {path}"),
        Root::NewRule(number) => add_command(text, "new ", rules, *number),
        Root::Unfinished(number) => add_command(text, "unfinished ", rules, *number),
    }
}

/// Adds to what each of some links leads.
fn add_links(text: &mut String, rules: &[Rule], links: &[Link]) -> Result<(), AllocError>
    ensures { OnOk result (string_bytes text.new
        ≡ string_bytes text.old ++ flat_map (specs.link_text rules.now) links.now) }
{
    for link in links {
        add_link(text, rules, link)?;
    }
    Ok(())
}

/// Adds to what a link leads.
fn add_link(text: &mut String, rules: &[Rule], link: &Link) -> Result<(), AllocError>
    ensures { OnOk result (string_bytes text.new
        ≡ string_bytes text.old ++ specs.link_text rules.now link.now) }
{
    match link {
        Link::Reads(number) => {
            text.push_str(" > ")?;
            add_rule(text, rules, *number)
        }
        Link::Writes(path) => write!(text, " > {path}"),
    }
}

/// Adds `DIR: LABEL` for the rule of a number.
fn add_rule(text: &mut String, rules: &[Rule], number: u32) -> Result<(), AllocError>
    ensures { OnOk result (string_bytes text.new
        ≡ string_bytes text.old ++ specs.rule_text (slice_get rules.now number)) }
{
    match rule_at(rules, number) {
        Some(rule) => write!(text, "{}: {}", rule.dir, label(rule)),
        None => Ok(()),
    }
}

/// Adds a word, and `DIR: COMMAND` for the rule of a number.
fn add_command(text: &mut String, word: &str, rules: &[Rule], number: u32) -> Result<(), AllocError>
    ensures { OnOk result (string_bytes text.new
        ≡ string_bytes text.old ++ (word.now ++ specs.command_text (slice_get rules.now number))) }
{
    text.push_str(word)?;
    match rule_at(rules, number) {
        Some(rule) => write!(text, "{}: {}", rule.dir, rule.text),
        None => Ok(()),
    }
}

/// What is printed for a rule.
fn label(rule: &Rule) -> &Text
    ensures { result.now ≡ label_of rule.now }
{
    match &rule.display {
        Some(display) => display,
        None => &rule.text,
    }
}
