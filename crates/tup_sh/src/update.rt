//! What the commands of an update have in common: files beside their stages, whose names begin with the name of the update.
use std::fs;
use std::fs::File;
use std::rt::Files;
use tup_child::{Failure, Tree};
use tup_disk::{Operation, told};

/// How the name of an update ends that is quiet.
const QUIET: &str = ".quiet";

/// The front of the names of the files of an update, as its stages' names have it.
#[derive(Drop)]
pub(crate) struct Update {
    /// `None` where the stage has no name of that form: then the command is alone.
    front: Option<String>,
    /// Whether it shows nothing but what is wrong.
    pub(crate) is_quiet: bool,
}

impl Update {
    /// The update of the command with a stage of this name. The name says the update, the seat and how many commands the seat had.
    pub(crate) fn of<R: Files<File = File> + Clone + Drop>(
        tree: &Tree<R>,
        stage: &str,
    ) -> Result<Update, Failure> {
        let name = stage.rsplit('/').next().unwrap_or(stage);
        let mut parts = name.split('-');
        let front = match (parts.next(), parts.next(), parts.next(), parts.next()) {
            (Some(update), Some(_), Some(_), None) => {
                let folder = tree.stage.as_str();
                Some(format!(in tree.alloc; "{folder}/../{update}")?)
            }
            _ => None,
        };
        let is_quiet = match &front {
            Some(front) => front.as_str().ends_with(QUIET),
            None => false,
        };
        Ok(Update { front, is_quiet })
    }

    /// Whether none of its commands has asked this before. One that is alone is the first.
    pub(crate) fn is_first<R: Files<File = File> + Clone + Drop>(
        &self,
        tree: &Tree<R>,
        what: &str,
    ) -> Result<bool, Failure> {
        match self.place(tree, what)? {
            Some(place) => Ok(File::create_new(&tree.rt, place.as_str()).is_ok()),
            None => Ok(true),
        }
    }

    /// What its commands know of something. `None` where none has found it out yet.
    pub(crate) fn known<R: Files<File = File> + Clone + Drop>(
        &self,
        tree: &Tree<R>,
        what: &str,
    ) -> Result<Option<Vec<u8>>, Failure> {
        match self.place(tree, what)? {
            Some(place) => Ok(tree.content(place.as_str()).ok()),
            None => Ok(None),
        }
    }

    /// Lets its commands know of something. Where it can't be written each finds it out for itself.
    pub(crate) fn note<R: Files<File = File> + Clone + Drop>(
        &self,
        tree: &Tree<R>,
        what: &str,
        content: &[u8],
    ) -> Result<(), Failure> {
        if let Some(place) = self.place(tree, what)? {
            let aside = tree.staged(what)?;
            let written = fs::write(&tree.rt, aside.as_str(), content);
            told(tree.alloc, Operation::Write, aside.as_str(), written)?;
            drop(fs::rename(&tree.rt, aside.as_str(), place.as_str()));
        }
        Ok(())
    }

    /// The place of a file of the update.
    fn place<R: Files<File = File> + Clone + Drop>(
        &self,
        tree: &Tree<R>,
        what: &str,
    ) -> Result<Option<String>, Failure> {
        match &self.front {
            Some(front) => Ok(Some(format!(in tree.alloc; "{front}-{what}")?)),
            None => Ok(None),
        }
    }
}
