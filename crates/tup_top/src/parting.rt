//! A crew of which some work.
ghost use Rattle.std.specs.Prelude.{◌≡◌, ◌≤◌, ◌+◌, ◌-◌, ◌++◌, drop, length, reverse, take, IfOk, OnErr, OnOk};
ghost use Rattle.std.specs.Vec.{vec_capacity};
ghost use Rattle.tup_top.specs.Order as specs;

use std::alloc::{AllocError, Global};

/// How many of so many runners an update uses.
pub(crate) fn used(jobs: Option<u32>, many: usize) -> usize
    ensures { result ≡ specs.used_of jobs many }
{
    match jobs {
        None => many,
        Some(jobs) => (jobs as usize).min(many).max(1),
    }
}

/// Parts off what stands behind the first `keep` of a list, the last first, with room for all of it.
pub(crate) fn part_off<T: Drop>(
    alloc: Global,
    list: &mut Vec<T>,
    keep: usize,
) -> Result<Vec<T>, AllocError>
    requires { keep ≤ length list.old.items }
    ensures kept { OnOk result (list.new.items ≡ take keep list.old.items) }
    ensures apart { IfOk result (λ rest. rest.items ≡ reverse (drop keep list.old.items)) }
    ensures room { IfOk result (λ rest. length list.old.items ≤ vec_capacity rest) }
    ensures untouched { OnErr result (list.new.items ≡ list.old.items) }
{
    let mut rest = Vec::with_capacity(alloc, list.len())?;
    move_last(list, &mut rest, keep);
    Ok(rest)
}

/// A list, and behind it what was parted off.
pub(crate) fn rejoined<T: Drop>(mut list: Vec<T>, mut rest: Vec<T>) -> Vec<T>
    requires { length rest.items + length list.items ≤ vec_capacity rest }
    ensures { result.items ≡ list.items ++ reverse rest.items }
{
    move_last(&mut list, &mut rest, 0);
    rest.reverse();
    rest
}

/// Moves what stands behind the first `keep` of a list to another that has room for it, the last first.
fn move_last<T: Drop>(from: &mut Vec<T>, to: &mut Vec<T>, keep: usize)
    requires keep { keep ≤ length from.old.items }
    requires room { length to.old.items + (length from.old.items - keep) ≤ vec_capacity to.old }
    ensures kept { from.new.items ≡ take keep from.old.items }
    ensures moved { to.new.items ≡ to.old.items ++ reverse (drop keep from.old.items) }
    ensures room { vec_capacity to.new ≡ vec_capacity to.old }
{
    while from.len() > keep {
        if let Some(last) = from.pop() {
            to.push_reserved(last);
        }
    }
}
