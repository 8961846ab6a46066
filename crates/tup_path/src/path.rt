//! A path: visible names from the top directory down.
ghost use Rattle.std.specs.Prelude.{◌≡◌, ◌<◌, ◌⊎◌, ◌↔◌, [], ◌∷◌, ◌++◌, nat_eq, refl, length, slice_get, Some, Ok, Err, IfOk, IsTrue, IfErr, OnOk, OnErr, MatchOption, MatchResult};
ghost use Rattle.std.specs.Result.{result_ok};
ghost use Rattle.std.specs.Cmp.Rules.{comparing};
ghost use Rattle.std.specs.Cmp.Lexicographic.{pointwise_decides, bytes_decides};
ghost use Rattle.std.specs.Hash as fed;
ghost use Rattle.std.specs.Hash.{same_Alike};
ghost use Rattle.std.specs.Ordering.{as_partial_cmp};
ghost use Rattle.std.proofs.Common.{rules};
ghost use Rattle.tup_path.specs.Name.{IsPath};
ghost use Rattle.tup_path.specs.Resolve.{resolve, below, above, step, parts, walk};
ghost use Rattle.tup_path.specs.Show.{show, show_from};
ghost use Rattle.tup_path.specs.Tree.{IsBelow};
ghost use Rattle.tup_path.specs.Gives.{GivesUnless};
ghost use Rattle.tup_path.specs.Order.{by_names, same_path, same_path-by_names, by_names-total, by_names-partial};

use crate::fault::PathFault;
use crate::name::is_visible;
use crate::show::{shared, written};
use crate::text::Text;
use std::alloc::{AllocError, Global};
use std::cmp::Ordering;
use std::hash::{Hash, Hasher};
use std::marker::Model;

/// How many bytes a name may have.
pub const MAX_NAME: usize = 255;

/// How many names a path may have.
pub const MAX_DEPTH: usize = 32;

/// The place of a file or a folder: the names from the top directory down. The empty path is the
/// top directory. Every name is visible, and there are at most 32.
#[derive(Debug, Drop)]
pub struct Path {
    names: Vec<Text>,
}

impl Model for Path {
    ghost use Rattle.std.specs.Prelude.{List, ℕ};
    ghost use Rattle.tup_path.specs.Name.{IsPath};

    ghost Value = { List (List ℕ) };

    ghost view = { λ p. p.names.items };

    ghost invariant = { λ p. IsPath p.names.items };
}

impl Path {
    /// The top directory; it takes no memory.
    pub fn top(alloc: Global) -> Path
        ensures { result ≡ [] }
    {
        Path {
            names: Vec::new(alloc),
        }
    }

    /// The top directory, with room for so many names.
    pub fn with_room(alloc: Global, names: usize) -> Result<Path, AllocError>
        ensures { IfOk result (λ path. path ≡ []) }
    {
        Ok(Path {
            names: Vec::with_capacity(alloc, names)?,
        })
    }

    /// The path that a text names from a folder. The text is cut at its slashes: an empty part and
    /// `.` stay, `..` goes up, and each other part goes down.
    ///
    /// `Empty` is refused first, then a slash in front as `Outside`. Then the first part that leads
    /// nowhere is refused: `Outside` above the top, `TooLong` for more than 255 bytes, `Hidden`
    /// where it isn't a visible name, `TooLong` where it would be the 33rd name.
    pub fn resolve(alloc: Global, dir: &Path, text: &Text) -> Result<Path, PathFault>
        ensures { GivesUnless result PathFault.Memory (resolve dir.now text.now) }
    {
        dir.led_by(alloc, text.as_str())
    }

    /// The path that a text names from the top directory; it is refused as in `resolve`.
    pub fn from_top(alloc: Global, text: &str) -> Result<Path, PathFault>
        ensures { GivesUnless result PathFault.Memory (resolve [] text.now) }
    {
        Path::top(alloc).led_by(alloc, text)
    }

    /// The path one name further down. A name that isn't visible, as `.`, `..`, the empty one or
    /// one with a slash, is `Hidden`; `TooLong` is as in `resolve`.
    pub fn join(&self, alloc: Global, name: &Text) -> Result<Path, PathFault>
        ensures { GivesUnless result PathFault.Memory (below self.now name.now) }
    {
        let mut path = self.copy_with_room(alloc)?;
        path.push(alloc, name.as_str())?;
        Ok(path)
    }

    /// The same path with one name more, which is given away. It is refused as in `join`.
    pub fn down(self, name: Text) -> Result<Path, PathFault>
        ensures { GivesUnless result PathFault.Memory (below self name) }
    {
        let mut path = self;
        path.go_down(name)?;
        Ok(path)
    }

    /// How many names the path has; 0 is the top directory.
    pub fn depth(&self) -> usize
        ensures depth { result ≡ length self.now }
        ensures path { IsPath self.now }
    {
        self.names.len()
    }

    /// The name at a place, counted from 0 at the top.
    pub fn name(&self, at: usize) -> &Text
        requires { at < length self.now }
        ensures { slice_get self.now at ≡ Some result.now }
    {
        &self.names[at]
    }

    /// Whether the path lies below a folder, at whatever depth. A folder doesn't lie below itself.
    pub fn is_below(&self, folder: &Path) -> bool
        ensures { IsTrue result ↔ IsBelow folder.now self.now }
    {
        self.depth() > folder.depth() && self.names.starts_with(&folder.names)
    }

    /// The same path once more; it takes memory, and has no other refusal.
    pub fn copy(&self, alloc: Global) -> Result<Path, PathFault>
        ensures { GivesUnless result PathFault.Memory (Ok self.now) }
    {
        Ok(Path {
            names: Vec::from_clones(alloc, &self.names)?,
        })
    }

    // The same path once more, with room for one name more.
    fn copy_with_room(&self, alloc: Global) -> Result<Path, PathFault>
        ensures { GivesUnless result PathFault.Memory (Ok self.now) }
    {
        let mut names = Vec::with_capacity(alloc, self.names.len().saturating_add(1))?;
        names.extend_with_clones(&self.names)?;
        Ok(Path { names })
    }

    /// The names from the top down.
    pub fn names(&self) -> &[Text]
        ensures names { result.now ≡ self.now }
        ensures path { IsPath self.now }
    {
        &self.names
    }

    /// The folder that the path lies in: all names but the last. `None` for the top directory.
    pub fn parent(&self, alloc: Global) -> Result<Option<Path>, PathFault>
        ensures { GivesUnless result PathFault.Memory (Ok (result_ok (above self.now))) }
    {
        match self.names.split_last() {
            Some((_, folder)) => Ok(Some(Path {
                names: Vec::from_clones(alloc, folder)?,
            })),
            None => Ok(None),
        }
    }

    /// The names with a slash between them, and `.` for the top directory.
    pub fn show(&self, alloc: Global) -> Result<Text, PathFault>
        ensures { GivesUnless result PathFault.Memory (Ok (show self.now)) }
    {
        Ok(written(alloc, 0, self.names())?)
    }

    /// The way from a folder to the path: `..` for each name of the folder past those that both
    /// share at their front, then the rest of the path. It is `.` where both are equal.
    pub fn show_from(&self, alloc: Global, dir: &Path) -> Result<Text, PathFault>
        ensures { GivesUnless result PathFault.Memory (Ok (show_from dir.now self.now)) }
    {
        let shared = shared(dir.names(), self.names());
        let up = dir.depth() - shared;
        Ok(written(alloc, up, &self.names()[shared..])?)
    }

    /// Where a text leads from a folder.
    fn led_by(&self, alloc: Global, text: &str) -> Result<Path, PathFault>
        ensures { GivesUnless result PathFault.Memory (resolve self.now text.now) }
    {
        match text.as_bytes().first() {
            None => Err(PathFault::Empty),
            Some(b'/') => Err(PathFault::Outside),
            Some(_) => self.copy(alloc)?.walk(alloc, text),
        }
    }

    /// Goes where the parts of a text lead, one after another.
    fn walk(self, alloc: Global, text: &str) -> Result<Path, PathFault>
        ensures { GivesUnless result PathFault.Memory (walk self (parts text.now)) }
    {
        let mut path = self;
        let mut rest = text;
        'parts: while let Some((part, more)) = rest.split_once('/') {
            path.step(alloc, part)?;
            rest = more;
        }
        path.step(alloc, rest)?;
        Ok(path)
    }

    /// Goes where one part leads.
    fn step(&mut self, alloc: Global, part: &str) -> Result<(), PathFault>
        ensures { MatchResult result
            (λ _. step self.old part.now ≡ Ok self.new)
            (λ fault. (fault ≡ PathFault.Memory) ⊎ (step self.old part.now ≡ Err fault)) }
    {
        match part.as_bytes() {
            b"" | b"." => Ok(()),
            b".." => self.pop(),
            _ => self.push(alloc, part),
        }
    }

    /// Goes down to a name. After a refusal the path is as it was.
    fn push(&mut self, alloc: Global, name: &str) -> Result<(), PathFault>
        ensures way { MatchResult result
            (λ _. below self.old name.now ≡ Ok self.new)
            (λ fault. (fault ≡ PathFault.Memory) ⊎ (below self.old name.now ≡ Err fault)) }
        ensures kept { OnErr result (self.new ≡ self.old) }
    {
        self.go_down(Text::from_str(alloc, name)?)
    }

    /// The same with a name that is given away.
    fn go_down(&mut self, name: Text) -> Result<(), PathFault>
        ensures way { MatchResult result
            (λ _. below self.old name ≡ Ok self.new)
            (λ fault. (fault ≡ PathFault.Memory) ⊎ (below self.old name ≡ Err fault)) }
        ensures kept { OnErr result (self.new ≡ self.old) }
    {
        let text = name.as_str();
        if text.len() > MAX_NAME {
            return Err(PathFault::TooLong);
        }
        if !is_visible(text) {
            return Err(PathFault::Hidden);
        }
        if self.names.len() >= MAX_DEPTH {
            return Err(PathFault::TooLong);
        }
        self.names.push(name)?;
        Ok(())
    }

    /// Goes up by a name. At the top directory that is `Outside`, and the path stays.
    fn pop(&mut self) -> Result<(), PathFault>
        ensures { MatchResult result
            (λ _. above self.old ≡ Ok self.new)
            (λ fault. (above self.old ≡ Err fault) × (self.new ≡ self.old)) }
    {
        match self.names.pop() {
            Some(_) => Ok(()),
            None => Err(PathFault::Outside),
        }
    }
}

impl Clone for Path {
    ghost is_clone = { λ path copy. copy ≡ path };

    fn clone(&self) -> Result<Path, AllocError> {
        Ok(Path {
            names: self.names.clone()?,
        })
    }
}

impl PartialEq for Path {
    ghost eq = { same_path };

    ghost laws = { Prim.search (comparing, rules) };

    fn eq(&self, other: &Path) -> bool {
        self.names == other.names
    }
}

impl Eq for Path {
    ghost laws = { Prim.search (comparing, rules) };
}

impl Hash for Path {
    ghost hash_input = { fed.slice fed.str };

    ghost respects_eq = { (same_Alike (fed.slice fed.str) (pointwise_decides bytes_decides)).fed };

    fn hash<H: Hasher>(&self, state: &mut H) {
        self.names.hash(state);
    }
}

impl PartialOrd for Path {
    ghost partial_cmp = { as_partial_cmp by_names };

    ghost laws = { by_names-partial };

    fn partial_cmp(&self, other: &Path) -> Option<Ordering> {
        Some(self.cmp(other))
    }
}

impl Ord for Path {
    ghost cmp = { by_names };

    ghost total = { by_names-total };

    ghost matches_partial_cmp = { λ x y. refl };

    ghost matches_eq = { same_path-by_names };

    fn cmp(&self, other: &Path) -> Ordering {
        self.names.cmp(&other.names)
    }
}
