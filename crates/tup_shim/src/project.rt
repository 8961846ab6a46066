//! The files of the project, as the command sees them, and the log of what it asks.
ghost use Rattle.std.specs.Prelude.{◌≡◌};

use std::alloc::Global;
use std::fs::File;
use std::rt::Files;
use tup_child::{Failure, Tree};
use tup_path::{Bytes, Items, Path, PathFault, Text};
use tup_proc::LogLine;
use tup_runner::{Answer, Stamped, View, ViewFailed};
use tup_stamp::stamp_of;

/// The files below a root as a command in a folder sees them: its own outputs aren't there.
#[derive(Drop)]
pub(crate) struct Project<'a, R: Files<File = File> + Clone + Drop> {
    pub(crate) tree: &'a Tree<R>,
    pub(crate) dir: &'a Path,
    pub(crate) log: Items<LogLine>,
    /// The text of a file that couldn't be read.
    pub(crate) failed: Option<Text>,
}

impl<R: Files<File = File> + Clone + Drop> Project<'_, R> {
    /// What stands at a text. `None` where nothing does.
    fn find(&self, alloc: Global, text: &Text) -> Result<Option<Bytes>, Failure> {
        match Path::resolve(alloc, self.dir, text) {
            Ok(path) => self.read(&path),
            Err(PathFault::Memory) => Err(Failure::Memory),
            Err(_) => Ok(None),
        }
    }

    /// What the file at a path holds: a link holds where it leads.
    fn read(&self, path: &Path) -> Result<Option<Bytes>, Failure> {
        match self.tree.found(path)? {
            Some(bytes) => Ok(Some(Bytes::new(bytes))),
            None => Ok(None),
        }
    }

    /// Adds a line to the log.
    fn note(&mut self, text: &Text, found: &Option<Bytes>) -> Result<(), Failure>
        ensures tree { self.new.tree ≡ self.old.tree }
        ensures failed { self.new.failed ≡ self.old.failed }
    {
        let text = text.clone()?;
        let line = match found {
            Some(bytes) => LogLine::Read {
                stamp: stamp_of(bytes.as_slice()),
                text,
            },
            None => LogLine::Absent { text },
        };
        self.log.push(line)?;
        Ok(())
    }
}

impl<R: Files<File = File> + Clone + Drop> View for Project<'_, R> {
    ghost use Rattle.std.specs.Prelude.{List, [], ◌≡◌, option_map, false, refl};
    ghost use Rattle.std.proofs.Common.{◌∙◌};
    ghost use Rattle.std.proofs.lemmas.Bool.{false≢true};
    ghost use Rattle.tup_runner.specs.Refusal.{Refusal};
    ghost use Rattle.tup_runner.specs.declared.fault.ViewFailed.TheVariants.{Fault};

    ghost tells = { false };

    ghost asks = { λ _. [] };

    ghost came = { λ _ _ _. Unit {0} };

    ghost refusal = { λ p. option_map {U = Refusal}
        (λ text. record { text = text; why = Fault }) p.failed };

    ghost outputs = { λ p. p.tree.now.own.items };

    ghost same = { λ first last. last.tree.now.own.items ≡ first.tree.now.own.items };

    fn ask(&mut self, alloc: Global, text: &Text) -> Result<Answer, ViewFailed> {
        let refused = text.clone()?;
        let Ok(found) = self.find(alloc, text) else {
            self.failed = Some(refused);
            return Err(ViewFailed::Fault);
        };
        if self.note(text, &found).is_err() {
            return Err(ViewFailed::Memory);
        }
        Ok(match found {
            Some(bytes) => Answer::Content(Stamped::new(bytes)),
            None => Answer::Absent,
        })
    }

    fn own(&self) -> &[Path] {
        self.tree.own.as_slice()
    }

    ghost stays = { λ _. tt };

    ghost goes_on = { λ _ _ _ _ _ _ _. tt };

    ghost same_itself = { λ _. refl };

    ghost same_on = { λ _ _ _ one two. two ∙ one };

    ghost same_outputs = { λ _ _ one. one };

    ghost told = { λ _ _ _ tells _. absurd (false≢true tells) };
}
