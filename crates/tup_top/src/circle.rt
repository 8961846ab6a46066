//! How what waits for each other, and a group, are written.
ghost use Rattle.std.specs.Prelude.{◌≡◌, Some, fold};
ghost use Rattle.std.specs.List.{flat_map, position_or_len};
ghost use Rattle.tup_path.specs.Order.{same_path};
ghost use Rattle.tup_compare.specs.Compared.{first_of};
ghost use Rattle.tup_top.specs.Lines as specs;

use std::fmt;
use tup_path::Path;
use tup_rule::{GroupRef, RuleName};

/// Folders in a circle: from the first of them in the order of paths on, and that one again at the
/// end.
#[derive(Drop)]
pub(crate) struct Folders<'a>(pub &'a [Path]);

/// Rules in a circle: from the first one on, and that one again at the end.
#[derive(Drop)]
pub(crate) struct Commands<'a>(pub &'a [RuleName]);

/// A group: its name, with its folder before it where that isn't the top.
#[derive(Drop)]
pub(crate) struct Group<'a>(pub &'a GroupRef);

/// Folders with an arrow behind each.
#[derive(Drop)]
struct FolderArrows<'a>(&'a [Path]);

/// Rules with an arrow behind each.
#[derive(Drop)]
struct RuleArrows<'a>(&'a [RuleName]);

impl fmt::Display for Folders<'_> {
    ghost output = { λ folders. Some (specs.folders_circle folders.0.now) };

    fn fmt<W: fmt::Write>(&self, f: &mut fmt::Formatter<W>) -> fmt::Result {
        let at = place_of_first(self.0);
        let Some(first) = self.0.get(at) else {
            return Ok(());
        };
        let (before, from) = self.0.split_at(at);
        write!(f, "{}{}{first}", FolderArrows(from), FolderArrows(before))
    }
}

impl fmt::Display for FolderArrows<'_> {
    ghost output = { λ folders. Some (flat_map specs.folder_arrow folders.0.now) };

    fn fmt<W: fmt::Write>(&self, f: &mut fmt::Formatter<W>) -> fmt::Result {
        for folder in self.0 {
            write!(f, "{folder} -> ")?;
        }
        Ok(())
    }
}

impl fmt::Display for Commands<'_> {
    ghost output = { λ commands. Some (specs.rules_circle commands.0.now) };

    fn fmt<W: fmt::Write>(&self, f: &mut fmt::Formatter<W>) -> fmt::Result {
        match self.0.first() {
            Some(first) => write!(f, "{}{}: {}", RuleArrows(self.0), first.dir, first.text),
            None => Ok(()),
        }
    }
}

impl fmt::Display for RuleArrows<'_> {
    ghost output = { λ rules. Some (flat_map specs.rule_arrow rules.0.now) };

    fn fmt<W: fmt::Write>(&self, f: &mut fmt::Formatter<W>) -> fmt::Result {
        for rule in self.0 {
            write!(f, "{}: {} -> ", rule.dir, rule.text)?;
        }
        Ok(())
    }
}

impl fmt::Display for Group<'_> {
    ghost output = { λ group. Some (specs.group_text group.0.now) };

    fn fmt<W: fmt::Write>(&self, f: &mut fmt::Formatter<W>) -> fmt::Result {
        if self.0.dir.depth() > 0 {
            write!(f, "{}/", self.0.dir)?;
        }
        write!(f, "<{}>", self.0.name)
    }
}

/// The place of the first of some folders in the order of paths.
fn place_of_first(folders: &[Path]) -> usize
    ensures { result ≡ specs.place_of_first folders.now }
{
    match folders.first() {
        Some(folder) => place_of(folders, first(folder, folders)),
        None => 0,
    }
}

/// Where a folder stands first among others, or their number if it doesn't.
fn place_of(folders: &[Path], folder: &Path) -> usize
    ensures { result ≡ position_or_len (λ other. same_path other folder.now) folders.now }
{
    for (at, other) in folders.iter().enumerate() {
        if other == folder {
            return at;
        }
    }
    folders.len()
}

/// The first of a folder and others in the order of paths.
fn first<'a>(folder: &'a Path, others: &'a [Path]) -> &'a Path
    ensures { result.now ≡ fold first_of folder.now others.now }
{
    let mut first = folder;
    for other in others {
        first = earlier(first, other);
    }
    first
}

/// Of two folders the one that comes first.
fn earlier<'a>(one: &'a Path, other: &'a Path) -> &'a Path
    ensures { result.now ≡ first_of one.now other.now }
{
    if other < one { other } else { one }
}
