//! Rules that use a path, and rules whose records do.
ghost use Rattle.std.specs.Prelude.{◌≡◌, ◌↔◌, ◌++◌, ℕ, Contains, IfOk, OnOk, filter};
ghost use Rattle.std.specs.List.Sorted.{IsStrictlySortedBy};
ghost use Rattle.std.specs.Option.{option_copied};
ghost use Rattle.std.specs.Ordering.{nat_cmp};
ghost use Rattle.tup_readers.specs.Askers.{key_if};
ghost use Rattle.tup_readers.specs.Users.{IsUserBy, asks_it, is_user, names_it, tells, wrote_it};

use std::alloc::{AllocError, Global};
use tup_graph::Nodes;
use tup_path::Path;
use tup_record::RunRecord;
use tup_rule::Rule;

/// How a path is used.
#[derive(Clone, Copy)]
pub(crate) enum Way {
    /// The record of the rule asks it.
    Asks,
    /// The record wrote it.
    Writes,
    /// The rule declares it, or makes it.
    Names,
}

/// Those of some rules that use a path in a way, in their order.
pub(crate) fn users_among(
    alloc: Global,
    nodes: &Nodes,
    numbers: &[u32],
    path: &Path,
    way: Way,
) -> Result<Vec<u32>, AllocError>
    ensures users { IfOk result (λ users. (number : ℕ) → Contains users.items number
        ↔ (Contains numbers.now number × IsUserBy way nodes.now path.now number)) }
    ensures ascending { IsStrictlySortedBy nat_cmp numbers.now
        → IfOk result (λ users. IsStrictlySortedBy nat_cmp users.items) }
{
    let mut users = Vec::new(alloc);
    for number in numbers {
        push_if_user(&mut users, nodes, *number, path, way)?;
    }
    Ok(users)
}

/// Adds a rule, if it uses a path in a way.
fn push_if_user(
    users: &mut Vec<u32>,
    nodes: &Nodes,
    number: u32,
    path: &Path,
    way: Way,
) -> Result<(), AllocError>
    ensures { OnOk result (users.new.items
        ≡ users.old.items ++ key_if (is_user way nodes.now path.now number) number) }
{
    if uses(nodes, number, path, way) {
        users.push(number)?;
    }
    Ok(())
}

/// Whether a rule uses a path in a way.
fn uses(nodes: &Nodes, number: u32, path: &Path, way: Way) -> bool
    ensures { result ≡ is_user way nodes.now path.now number }
{
    match way {
        Way::Asks => asks(nodes.run_of(number), path),
        Way::Writes => wrote(nodes.run_of(number), path),
        Way::Names => names(nodes.rules().get(number as usize), path),
    }
}

/// Whether there is a record, which asks a path.
fn asks(run: Option<&RunRecord>, path: &Path) -> bool
    ensures { result ≡ asks_it path.now (option_copied run.entry) }
{
    match run {
        Some(run) => is_told(run.asks.as_slice(), path),
        None => false,
    }
}

/// Whether there is a record, which wrote a path.
fn wrote(run: Option<&RunRecord>, path: &Path) -> bool
    ensures { result ≡ wrote_it path.now (option_copied run.entry) }
{
    match run {
        Some(run) => is_told(run.writes.as_slice(), path),
        None => false,
    }
}

/// Whether there is a rule, which declares a path or makes it.
fn names(rule: Option<&Rule>, path: &Path) -> bool
    ensures { result ≡ names_it path.now (option_copied rule.entry) }
{
    match rule {
        Some(rule) => rule.declares(path) || rule.writes(path),
        None => false,
    }
}

/// Whether a path is among those that a record tells of.
fn is_told<T>(list: &[(Path, T)], path: &Path) -> bool
    ensures { result ≡ tells path.now list.now }
{
    list.iter().any(|told| *path == told.0)
}
