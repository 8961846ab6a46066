//! What a command did, with the links on the way to each place.
use crate::ground::Ground;
use crate::upper::written;
use crate::walk::{MAX_NAMES, Walk, is_system, name_below, path_below, unseen_name};
use std::alloc::Global;
use std::collections::BTreeSet;
use std::fs::File;
use std::rt::Files;
use std::{fs, str};
use tup_child::{Failure, Tree};
use tup_disk::Standing;
use tup_path::{Bytes, Path, Text};
use tup_strace::{Account, Act, Answer, Step};

/// How many interpreters of interpreters the system starts.
const MAX_INTERPRETERS: usize = 4;

/// The account of a command over a tree.
#[derive(Drop)]
pub(crate) struct Seen<'a, R: Files<File = File> + Clone + Drop> {
    pub(crate) tree: &'a Tree<R>,
    pub(crate) ground: &'a Ground,
    pub(crate) account: &'a mut Account,
    pub(crate) untracked: &'a mut Untracked,
    /// Places that were looked at and are no links.
    pub(crate) plain: BTreeSet<String>,
    /// Folders that were asked for with all above them, because of what was missed or made in them.
    pub(crate) above: BTreeSet<Path>,
    /// Whether an answer is sure to be of the path to which its place leads now. It isn't where a link on the way is the command's
    /// own, which may have led elsewhere then, or leads to no text, and isn't followed.
    pub(crate) is_sure: bool,
}

/// What a command asked for whose changes an update doesn't see: the first of each kind, by its path from
/// the top.
#[derive(Drop)]
pub(crate) struct Untracked {
    /// A file of a name that tup doesn't see, or a link that leads to no text.
    pub(crate) file: Option<Text>,
    /// A link to a folder.
    pub(crate) link: Option<Text>,
}

impl Untracked {
    pub(crate) fn none() -> Untracked {
        Untracked {
            file: None,
            link: None,
        }
    }
}

impl<R: Files<File = File> + Clone + Drop> Seen<'_, R> {
    /// Adds all that was done.
    pub(crate) fn follow_all(&mut self, alloc: Global, acts: &[Act]) -> Result<(), Failure> {
        for act in acts {
            self.follow(alloc, act)?;
        }
        Ok(())
    }

    /// Adds what was done to a place.
    fn follow(&mut self, alloc: Global, act: &Act) -> Result<(), Failure> {
        match act {
            Act::Ask {
                place,
                follows,
                answer,
            } => self.ask(alloc, place, *follows, *answer),
            Act::Run { place } => self.start(alloc, place),
            Act::Write { place, follows } => self.write(alloc, place, *follows),
            Act::Change { place, follows } => self.change(alloc, place, *follows),
            Act::Remove { place } => self.remove(alloc, place),
            Act::Move { from, to } => self.rename(alloc, from, to),
        }
    }

    /// Adds that a place was asked for, and what was told of it.
    fn ask(
        &mut self,
        alloc: Global,
        place: &Bytes,
        follows: bool,
        answer: Answer,
    ) -> Result<(), Failure> {
        match self.resolve(alloc, place.as_slice(), follows)? {
            Some(path) => {
                let answer = if self.is_sure {
                    answer
                } else {
                    Answer::Unclear
                };
                self.add(alloc, Step::Ask(path, answer))
            }
            None => self.note_unseen(alloc, place.as_slice()),
        }
    }

    /// Notes that a place was asked for which no path names, if it is the first.
    fn note_unseen(&mut self, alloc: Global, place: &[u8]) -> Result<(), Failure> {
        if self.untracked.file.is_none() {
            self.untracked.file = self.unseen_at(alloc, place)?;
        }
        Ok(())
    }

    /// The name from the top of the file at a place, where one is there that tup doesn't see.
    fn unseen_at(&self, alloc: Global, place: &[u8]) -> Result<Option<Text>, Failure> {
        let Ok(place) = str::from_utf8(place) else {
            return Ok(None);
        };
        match self.unseen(alloc, place)? {
            Some(name) => self.if_file(place, name),
            None => Ok(None),
        }
    }

    /// A name, where a file is at its place.
    fn if_file(&self, place: &str, name: Text) -> Result<Option<Text>, Failure> {
        match self.tree.at(place)? {
            Standing::File { .. } => Ok(Some(name)),
            _ => Ok(None),
        }
    }

    /// Adds that a place was written.
    fn write(&mut self, alloc: Global, place: &Bytes, follows: bool) -> Result<(), Failure> {
        match self.resolve(alloc, place.as_slice(), follows)? {
            Some(path) => self.add(alloc, Step::Write(path)),
            None => Ok(()),
        }
    }

    /// Adds that a place may have been changed.
    fn change(&mut self, alloc: Global, place: &Bytes, follows: bool) -> Result<(), Failure> {
        match self.resolve(alloc, place.as_slice(), follows)? {
            Some(path) => self.add(alloc, Step::Change(path)),
            None => Ok(()),
        }
    }

    /// Adds that a place was removed.
    fn remove(&mut self, alloc: Global, place: &Bytes) -> Result<(), Failure> {
        match self.resolve(alloc, place.as_slice(), false)? {
            Some(path) => self.add(alloc, Step::Remove(path)),
            None => Ok(()),
        }
    }

    /// Adds that a place was moved. Where one end isn't in the project, the other one was written or removed.
    fn rename(&mut self, alloc: Global, from: &Bytes, to: &Bytes) -> Result<(), Failure> {
        match self.resolve(alloc, from.as_slice(), false)? {
            Some(from) => self.rename_from(alloc, from, to),
            None => self.write(alloc, to, false),
        }
    }

    /// Adds that a path of the project was moved to a place.
    fn rename_from(&mut self, alloc: Global, from: Path, to: &Bytes) -> Result<(), Failure> {
        match self.resolve(alloc, to.as_slice(), false)? {
            Some(to) => self.add(alloc, Step::Move { from, to }),
            None => self.add(alloc, Step::Remove(from)),
        }
    }

    /// Adds a step. What is missed or made in a folder asks for that folder too. Below a folder that the command made, moved or
    /// removed nothing is asked of the project.
    fn add(&mut self, alloc: Global, step: Step) -> Result<(), Failure> {
        self.ask_above(alloc, &step)?;
        if self.is_below(alloc, &step)? {
            self.add_below(&step)
        } else {
            self.put(&step)
        }
    }

    /// Asks for the folders above what a step misses or makes.
    fn ask_above(&mut self, alloc: Global, step: &Step) -> Result<(), Failure> {
        match step {
            Step::Ask(path, answer) => match answer {
                Answer::Found => Ok(()),
                Answer::Missed => self.ask_folders(alloc, path),
                Answer::Unclear => self.ask_if_missing(alloc, path),
            },
            Step::Write(path) => self.ask_folders(alloc, path),
            Step::Change(path) => self.ask_if_missing(alloc, path),
            Step::Remove(_) => Ok(()),
            Step::Move { to, .. } => self.ask_folders(alloc, to),
        }
    }

    /// Asks for the folders above a path at which nothing stood before the command.
    fn ask_if_missing(&mut self, alloc: Global, path: &Path) -> Result<(), Failure> {
        if self.account.is_own(path) {
            return Ok(());
        }
        match self.tree.before(path)? {
            Standing::Nothing => self.ask_folders(alloc, path),
            _ => Ok(()),
        }
    }

    /// Asks for the folders above a path. Those of an output of the rule were made for the command, and those in a folder that it
    /// made, moved or removed are its own.
    fn ask_folders(&mut self, alloc: Global, path: &Path) -> Result<(), Failure> {
        if self.tree.own.contains(path) || self.is_below_own(alloc, path)? {
            return Ok(());
        }
        let mut above = parent(alloc, path)?;
        for _ in 1..path.depth() {
            match above {
                Some(folder) => above = self.ask_folder(alloc, &folder)?,
                None => return Ok(()),
            }
        }
        Ok(())
    }

    /// Asks for a folder, and gives the one above it. `None` where that was done before.
    fn ask_folder(&mut self, alloc: Global, folder: &Path) -> Result<Option<Path>, Failure> {
        if self.above.contains(folder) {
            return Ok(None);
        }
        self.above.insert(folder.clone()?)?;
        self.put(&Step::Ask(folder.clone()?, Answer::Unclear))?;
        parent(alloc, folder)
    }

    /// Whether a step asks, and below such a folder.
    fn is_below(&self, alloc: Global, step: &Step) -> Result<bool, Failure> {
        match step {
            Step::Ask(path, _) => self.is_below_own(alloc, path),
            Step::Change(path) => self.is_below_own(alloc, path),
            Step::Remove(path) => self.is_below_own(alloc, path),
            Step::Move { from, .. } => self.is_below_own(alloc, from),
            Step::Write(_) => Ok(false),
        }
    }

    /// Adds what a step below such a folder writes.
    fn add_below(&mut self, step: &Step) -> Result<(), Failure> {
        match step {
            Step::Ask(_, _) => Ok(()),
            Step::Write(path) => self.put(&Step::Write(path.clone()?)),
            Step::Change(path) => self.put(&Step::Write(path.clone()?)),
            Step::Remove(path) => self.put(&Step::Write(path.clone()?)),
            Step::Move { from, to } => {
                self.put(&Step::Write(to.clone()?))?;
                self.put(&Step::Write(from.clone()?))
            }
        }
    }

    /// Adds a step as it is.
    fn put(&mut self, step: &Step) -> Result<(), Failure> {
        self.account.add(step)?;
        Ok(())
    }

    /// Whether a folder above a path is the command's own.
    fn is_below_own(&self, alloc: Global, path: &Path) -> Result<bool, Failure> {
        if self.account.own.as_slice().is_empty() {
            return Ok(false);
        }
        let mut above = parent(alloc, path)?;
        for _ in 0..path.depth() {
            match above {
                Some(folder) if self.account.is_own(&folder) => return Ok(true),
                Some(folder) => above = parent(alloc, &folder)?,
                None => return Ok(false),
            }
        }
        Ok(false)
    }

    /// Adds that a place was run: it is asked for, and so is the interpreter that it names, and so on.
    fn start(&mut self, alloc: Global, place: &Bytes) -> Result<(), Failure> {
        let mut program = Vec::from_slice(alloc, place.as_slice())?;
        for _ in 0..MAX_INTERPRETERS {
            match self.start_one(alloc, program.as_slice())? {
                Some(interpreter) => program = interpreter,
                None => return Ok(()),
            }
        }
        Ok(())
    }

    /// Adds that a program is asked for, and gives the interpreter that it names.
    fn start_one(&mut self, alloc: Global, place: &[u8]) -> Result<Option<Vec<u8>>, Failure> {
        match self.resolve(alloc, place, true)? {
            Some(path) => self.start_at(alloc, path),
            None => Ok(None),
        }
    }

    /// Adds that a program of the project is asked for, and gives the interpreter that it names.
    fn start_at(&mut self, alloc: Global, path: Path) -> Result<Option<Vec<u8>>, Failure> {
        let interpreter = self.interpreter(alloc, &path)?;
        self.add(alloc, Step::Ask(path, Answer::Unclear))?;
        Ok(interpreter)
    }

    /// The interpreter that a program names.
    fn interpreter(&self, alloc: Global, path: &Path) -> Result<Option<Vec<u8>>, Failure> {
        let place = self.now(path)?;
        match self.tree.at(place.as_str())? {
            Standing::File { .. } => self.interpreter_in(alloc, place.as_str()),
            _ => Ok(None),
        }
    }

    /// The interpreter that the file at a place names.
    fn interpreter_in(&self, alloc: Global, place: &str) -> Result<Option<Vec<u8>>, Failure> {
        let content = self.tree.content(place)?;
        match named(content.as_slice()) {
            Some(name) => Ok(Some(Vec::from_slice(alloc, name)?)),
            None => Ok(None),
        }
    }

    /// The place of a path as the command sees it.
    fn now(&self, path: &Path) -> Result<String, Failure> {
        if self.account.is_own(path) {
            written(self.tree, path)
        } else {
            self.tree.source(path)
        }
    }

    /// The path of a place, through the links on the way and, where it follows them, the one at its end. Links of the
    /// project are asked for. `None` for what no path of the project names.
    fn resolve(
        &mut self,
        alloc: Global,
        place: &[u8],
        follows: bool,
    ) -> Result<Option<Path>, Failure> {
        let Ok(text) = str::from_utf8(place) else {
            return Ok(None);
        };
        self.is_sure = true;
        match self.ground.home(self.tree, text)? {
            Some(home) => self.walk_to(alloc, home.as_str(), follows),
            None => self.walk_outside(alloc, text, follows),
        }
    }

    /// The same, of a place that isn't that of another mount of the project.
    fn walk_outside(
        &mut self,
        alloc: Global,
        place: &str,
        follows: bool,
    ) -> Result<Option<Path>, Failure> {
        if is_system(alloc, place, self.tree.root.as_str())? {
            return Ok(None);
        }
        self.walk_to(alloc, place, follows)
    }

    /// The same, of a place that is no part of the system.
    fn walk_to(
        &mut self,
        alloc: Global,
        place: &str,
        follows: bool,
    ) -> Result<Option<Path>, Failure> {
        let mut walk = Walk::to(alloc, place)?;
        self.go(alloc, &mut walk, follows)?;
        let path = walk.found(alloc, self.tree.root.as_str())?;
        if path.is_none() {
            self.ask_above_unseen(alloc, &mut walk)?;
        }
        Ok(path)
    }

    /// Asks for the folder above a place of the project that no path names.
    fn ask_above_unseen(&mut self, alloc: Global, walk: &mut Walk) -> Result<(), Failure> {
        let tree = self.tree;
        let root = tree.root.as_str();
        if !walk.ends_below(alloc, root)? {
            return Ok(());
        }
        for _ in 0..walk.names.len() {
            walk.names.pop();
            if let Some(path) = walk.found(alloc, root)? {
                return self.add(alloc, Step::Ask(path, Answer::Unclear));
            }
        }
        Ok(())
    }

    /// Walks to the end, or as far as names are walked.
    fn go(&mut self, alloc: Global, walk: &mut Walk, follows: bool) -> Result<(), Failure> {
        for _ in 0..MAX_NAMES {
            match walk.rest.pop() {
                Some(name) => self.step(alloc, walk, name, follows)?,
                None => return Ok(()),
            }
        }
        Ok(())
    }

    /// Walks to a name.
    fn step(
        &mut self,
        alloc: Global,
        walk: &mut Walk,
        name: String,
        follows: bool,
    ) -> Result<(), Failure> {
        match name.as_str() {
            "" | "." => Ok(()),
            ".." => self.leave(alloc, walk),
            _ => self.enter(alloc, walk, name, follows),
        }
    }

    /// Walks up out of a folder, for which that asks. The walk is over where none is there: the system says so too.
    fn leave(&mut self, alloc: Global, walk: &mut Walk) -> Result<(), Failure> {
        let place = walk.place(alloc)?;
        let path = path_below(alloc, self.tree.root.as_str(), place.as_str())?;
        walk.names.pop();
        match path {
            Some(path) => self.leave_path(alloc, walk, path),
            None => Ok(()),
        }
    }

    /// The same of a folder of the project.
    fn leave_path(&mut self, alloc: Global, walk: &mut Walk, path: Path) -> Result<(), Failure> {
        if self.account.is_own(&path) || self.is_below_own(alloc, &path)? {
            self.is_sure = false;
            return Ok(());
        }
        if self.tree.before(&path)? != Standing::Folder {
            walk.is_lost = true;
            walk.rest.clear();
            self.ask_if_missing(alloc, &path)?;
        }
        self.put(&Step::Ask(path, Answer::Unclear))
    }

    /// Walks down to a name.
    fn enter(
        &mut self,
        alloc: Global,
        walk: &mut Walk,
        name: String,
        follows: bool,
    ) -> Result<(), Failure> {
        walk.names.push(name)?;
        if follows || !walk.rest.is_empty() {
            self.pass(alloc, walk)
        } else {
            Ok(())
        }
    }

    /// Follows the link at which a walk is, if it is at one.
    fn pass(&mut self, alloc: Global, walk: &mut Walk) -> Result<(), Failure> {
        let place = walk.place(alloc)?;
        let Some(target) = self.link(alloc, place)? else {
            return Ok(());
        };
        walk.names.pop();
        match self.ground.home(self.tree, target.as_str())? {
            Some(home) => walk.add(alloc, home.as_str()),
            None => walk.add(alloc, target.as_str()),
        }
    }

    /// Where the link at a place leads, if there is one. A link of the project is asked for.
    fn link(&mut self, alloc: Global, place: String) -> Result<Option<String>, Failure> {
        match path_below(alloc, self.tree.root.as_str(), place.as_str())? {
            Some(path) => self.link_of(alloc, path),
            None => self.link_unnamed(alloc, place.as_str()),
        }
    }

    /// The same of a place that no path names. A link there that lies in the project is noted, if nothing is yet.
    fn link_unnamed(&mut self, alloc: Global, place: &str) -> Result<Option<String>, Failure> {
        let target = self.link_at(alloc, place)?;
        if target.is_some() && self.untracked.file.is_none() {
            self.untracked.file = self.unseen(alloc, place)?;
        }
        Ok(target)
    }

    /// The name from the top of a place that tup doesn't see.
    fn unseen(&self, alloc: Global, place: &str) -> Result<Option<Text>, Failure> {
        match unseen_name(alloc, self.tree.root.as_str(), place)? {
            Some(name) => Ok(Some(Text::from_str(alloc, name)?)),
            None => Ok(None),
        }
    }

    /// Where the link at a path leads, if there is one.
    fn link_of(&mut self, alloc: Global, path: Path) -> Result<Option<String>, Failure> {
        if self.tree.own.contains(&path) && !self.account.is_own(&path) {
            return Ok(None);
        }
        match self.link_now(alloc, &path)? {
            Some(target) => {
                self.note_link(&path)?;
                self.ask_link(alloc, path, target)
            }
            None => Ok(None),
        }
    }

    /// Notes a link of the project that is followed to a folder, if it is the first.
    fn note_link(&mut self, path: &Path) -> Result<(), Failure> {
        if self.untracked.link.is_none() && self.leads_to_folder(path)? {
            let Ok(text) = path.show(self.tree.alloc) else {
                return Err(Failure::Memory);
            };
            self.untracked.link = Some(text);
        }
        Ok(())
    }

    /// Whether the link at a path leads to a folder.
    fn leads_to_folder(&self, path: &Path) -> Result<bool, Failure> {
        let place = self.tree.source(path)?;
        Ok(match fs::metadata(&self.tree.rt, place.as_str()) {
            Ok(found) => found.is_dir(),
            Err(_) => false,
        })
    }

    /// Where the link at a path leads as the command sees it, if there is one.
    fn link_now(&mut self, alloc: Global, path: &Path) -> Result<Option<String>, Failure> {
        let place = self.now(path)?;
        self.link_at(alloc, place.as_str())
    }

    /// Adds that a link was asked for, and gives where it leads.
    fn ask_link(
        &mut self,
        alloc: Global,
        path: Path,
        target: String,
    ) -> Result<Option<String>, Failure> {
        if self.account.is_own(&path) {
            self.is_sure = false;
        }
        self.add(alloc, Step::Ask(path, Answer::Unclear))?;
        Ok(Some(target))
    }

    /// Where the link that stands at a place leads, if there is one and that is UTF-8. Else it isn't followed, and noted.
    fn link_at(&mut self, alloc: Global, place: &str) -> Result<Option<String>, Failure> {
        if self.plain.contains(place) {
            return Ok(None);
        }
        let Ok(Standing::Link) = self.tree.at(place) else {
            self.plain.insert(String::from_str(alloc, place)?)?;
            return Ok(None);
        };
        let target = self.tree.target(place)?;
        if target.is_none() {
            self.is_sure = false;
            self.note_strange(alloc, place)?;
        }
        Ok(target)
    }

    /// Notes a link of the project that leads to no text, if nothing is noted yet.
    fn note_strange(&mut self, alloc: Global, place: &str) -> Result<(), Failure> {
        if self.untracked.file.is_some() {
            return Ok(());
        }
        if let Some(name) = name_below(self.tree.root.as_str(), place) {
            self.untracked.file = Some(Text::from_str(alloc, name)?);
        }
        Ok(())
    }
}

/// The folder above a path, where that isn't the top.
fn parent(alloc: Global, path: &Path) -> Result<Option<Path>, Failure> {
    match path.parent(alloc) {
        Ok(parent) => Ok(parent),
        Err(_) => Err(Failure::Memory),
    }
}

/// The interpreter that a program's first line names.
fn named(content: &[u8]) -> Option<&[u8]> {
    let rest = content.strip_prefix(b"#!".as_slice())?;
    let line = rest.split(|byte| *byte == b'\n').next()?;
    let mut words = line.split(|byte| *byte == b' ' || *byte == b'\t');
    words.find(|word| !word.is_empty())
}
