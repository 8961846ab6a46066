//! The folder in which a started program finds its own outputs and leaves what it wrote: a new one for each command.
ghost use Rattle.std.specs.Prelude.{◌≡◌, ◌+◌, ◌%◌, ◌^◌, ◌++◌, ◌∷◌, [], IfOk, IfErr, OnOk, string_bytes};
ghost use Rattle.tup_path.specs.Show.{show};
ghost use Rattle.tup_proc.specs.Log.{IsLog};
ghost use Rattle.tup_proc_runner.specs.Refused.{IsMemoryOr, IsOfLog, IsOfRead};
ghost use Rattle.tup_proc_runner.specs.Stages.{stage_of};
ghost use Rattle.tup_proc_runner.specs.Told.{told_in, told_of, texts_of, with_line, list_of};

use crate::fault::{ProcFault, Refused};
use crate::older::{remove, remove_others, remove_own};
use crate::stages::Stages;
use std::alloc::{AllocError, Global};
use std::fs::File;
use std::io::{ErrorKind, Read};
use std::process::Processes;
use std::rt::Files;
use std::{fs, io};
use tup_disk::{Held, own_folder, stages};
use tup_path::{Bytes, Items, Path, Text};
use tup_proc::{LogFault, LogLine, read_log};
use tup_runner::{Ended, Writes};

/// The stages of a runner and the way to them. Each command has a new one, whose name none had before: so a program that
/// outlived its update, or went on behind its command, can't write into it by its own words.
#[derive(Drop)]
pub(crate) struct Stage<R: Files<File = File> + Clone + Drop> {
    pub(crate) rt: R,
    /// Where the stages are, and by which names.
    pub(crate) stages: Stages,
    /// How many commands had a stage.
    pub(crate) count: u64,
    /// The stage of the last one, and its name in the folder of stages.
    pub(crate) folder: Text,
    pub(crate) name: Text,
    /// The folder of stages, once there is a stage.
    pub(crate) held: Option<Held>,
}

impl<R: Files<File = File> + Processes + Clone + Drop> Stage<R> {
    /// Removes what older commands left, makes a new stage, and writes the list of the rule's own outputs into it. It is a
    /// stage of the project in a top folder.
    pub(crate) fn prepare(
        &mut self,
        alloc: Global,
        root: &Text,
        own: &[Path],
    ) -> Result<(), Refused>
        ensures { IfErr result (IsMemoryOr ProcFault.NoStage) }
    {
        self.hold(alloc, root)?;
        self.sweep(alloc)?;
        self.make(alloc)?;
        let place = self.place(alloc, "own")?;
        let list = listed(alloc, own)?;
        self.at(fs::write(&self.rt, place.as_str(), list.as_slice()))
    }

    /// Holds the folder of stages, if it isn't held yet.
    fn hold(&mut self, alloc: Global, root: &Text) -> Result<(), Refused>
        ensures refused { IfErr result (IsMemoryOr ProcFault.NoStage) }
        ensures named { self.new.folder ≡ self.old.folder }
    {
        if self.held.is_none() {
            self.held = Some(held_stages(&self.rt, alloc, root)?);
        }
        Ok(())
    }

    /// Removes what older commands left, as far as that can be: of other updates once, and of this runner's own. No stage has
    /// the name of one that stays.
    fn sweep(&self, alloc: Global) -> Result<(), AllocError> {
        let Some(held) = &self.held else {
            return Ok(());
        };
        let runtime = (self.rt.clone()?, alloc);
        if self.count == 0 {
            remove_others(&runtime, held, &self.stages)
        } else {
            remove(&runtime, held, self.name.as_str())
        }
    }

    /// Removes what the commands of its update left, as far as that can be, if it had any.
    pub(crate) fn leave(&self, alloc: Global) -> Result<(), AllocError> {
        match &self.held {
            Some(held) => remove_own(&(self.rt.clone()?, alloc), held, &self.stages),
            None => Ok(()),
        }
    }

    /// Makes the next stage, where nothing has its name.
    fn make(&mut self, alloc: Global) -> Result<(), Refused>
        ensures refused { IfErr result (IsMemoryOr ProcFault.NoStage) }
        ensures named { OnOk result (self.new.folder ≡ stage_of self.old.stages self.old.count) }
        ensures counted { OnOk result (self.new.count ≡ (self.old.count + 1) % 2 ^ 64) }
    {
        self.folder = self.stages.next(alloc, self.count)?;
        self.name = self.stages.name(alloc, self.count)?;
        self.count = self.count.wrapping_add(1);
        self.make_folder(alloc)
    }

    /// Makes the folder of the stage in the one that is held.
    fn make_folder(&self, alloc: Global) -> Result<(), Refused>
        ensures { IfErr result (IsMemoryOr ProcFault.NoStage) }
    {
        match &self.held {
            Some(held) => {
                let place = held.inside(alloc, self.name.as_str())?;
                self.at(fs::create_dir(&self.rt, place.as_str()))
            }
            None => Err(Refused::Fault(ProcFault::NoStage)),
        }
    }

    /// The lines of the log that the program left. Where there is none and a file `said` stands beside, it has printed why.
    pub(crate) fn log(&self, alloc: Global) -> Result<Items<LogLine>, Refused>
        ensures log { IfOk result IsLog }
        ensures refused { IfErr result IsOfLog }
    {
        if self.has_said(alloc)? {
            return Err(Refused::Fault(ProcFault::Told));
        }
        self.read_lines(alloc)
    }

    /// Whether the program has left the file that says that it printed why it has no log, and no log.
    fn has_said(&self, alloc: Global) -> Result<bool, AllocError> {
        let (said, log) = (self.place(alloc, "said")?, self.place(alloc, "log")?);
        let is_said = fs::symlink_metadata(&self.rt, said.as_str()).is_ok();
        Ok(is_said && fs::symlink_metadata(&self.rt, log.as_str()).is_err())
    }

    /// The lines of the log.
    fn read_lines(&self, alloc: Global) -> Result<Items<LogLine>, Refused>
        ensures log { IfOk result IsLog }
        ensures refused { IfErr result IsOfRead }
    {
        let bytes = self.read(alloc, "log")?;
        match read_log(alloc, &bytes) {
            Ok(lines) => Ok(lines),
            Err(LogFault::BadLine { .. }) => Err(Refused::Fault(ProcFault::BadLog)),
            Err(LogFault::Memory) => Err(Refused::Memory),
        }
    }

    /// How the program ended, and what it wrote.
    pub(crate) fn ended(&self, alloc: Global, lines: &[LogLine]) -> Result<Ended, Refused>
        ensures told { IfOk result (λ ended. told_of ended ≡ told_in lines.now) }
        ensures refused { IfErr result IsOfRead }
    {
        let mut ended = Ended {
            status: 0,
            writes: Items::new(alloc),
        };
        for line in lines {
            self.add(alloc, &mut ended, line)?;
        }
        Ok(ended)
    }

    /// Adds what a line says of it.
    fn add(&self, alloc: Global, ended: &mut Ended, line: &LogLine) -> Result<(), Refused>
        ensures told { OnOk result (told_of ended.new ≡ with_line (told_of ended.old) line.now) }
        ensures refused { IfErr result IsOfRead }
    {
        match line {
            LogLine::Wrote { file, text } => self.take(alloc, &mut ended.writes, *file, text),
            LogLine::End { status } => {
                ended.status = *status;
                Ok(())
            }
            LogLine::Read { .. } | LogLine::Absent { .. } => Ok(()),
        }
    }

    /// Adds a write with the content of its file.
    fn take(
        &self,
        alloc: Global,
        writes: &mut Writes,
        file: u32,
        text: &Text,
    ) -> Result<(), Refused>
        ensures texts { OnOk result (texts_of writes.new ≡ texts_of writes.old ++ text.now ∷ []) }
        ensures refused { IfErr result IsOfRead }
    {
        let content = self.written(alloc, file)?;
        add_write(writes, text, content)?;
        Ok(())
    }

    /// The content of a write.
    fn written(&self, alloc: Global, file: u32) -> Result<Bytes, Refused>
        ensures { IfErr result IsOfRead }
    {
        let name = format!(in alloc; "w{file}")?;
        Ok(Bytes::new(self.read(alloc, name.as_str())?))
    }

    /// What a file of the stage holds. The program should have left it: one that isn't there is a bad log.
    fn read(&self, alloc: Global, name: &str) -> Result<Vec<u8>, Refused>
        ensures { IfErr result IsOfRead }
    {
        let place = self.place(alloc, name)?;
        let mut bytes = Vec::new(alloc);
        match self.read_into(&mut bytes, place.as_str()) {
            Ok(()) => Ok(bytes),
            Err(e) if e.kind() == ErrorKind::NotFound => Err(Refused::Fault(ProcFault::BadLog)),
            Err(e) => Err(Refused::of(&e, ProcFault::NoStage)),
        }
    }

    /// Reads a file to its end.
    fn read_into(&self, bytes: &mut Vec<u8>, place: &str) -> io::Result<()> {
        File::open(&self.rt, place)?.read_to_end(bytes)?;
        Ok(())
    }

    /// The place of a file of the stage.
    fn place(&self, alloc: Global, name: &str) -> Result<String, AllocError>
        ensures { IfOk result (λ place. string_bytes place
            ≡ self.now.folder ++ 47 ∷ name.now) }
    {
        let mut place = String::from_str(alloc, self.folder.as_str())?;
        place.push('/')?;
        place.push_str(name)?;
        Ok(place)
    }

    /// An answer of the system about the stage.
    fn at(&self, answer: io::Result<()>) -> Result<(), Refused>
        ensures { IfErr result (IsMemoryOr ProcFault.NoStage) }
    {
        match answer {
            Ok(()) => Ok(()),
            Err(e) => Err(Refused::of(&e, ProcFault::NoStage)),
        }
    }
}

/// The folder of stages of the project in a top folder.
fn held_stages<R: Files<File = File> + Clone + Drop>(
    rt: &R,
    alloc: Global,
    root: &Text,
) -> Result<Held, Refused>
    ensures { IfErr result (IsMemoryOr ProcFault.NoStage) }
{
    match own_folder(rt, alloc, root.as_str()) {
        Ok(Some(own)) => held_in(rt, alloc, root, &own),
        Ok(None) => Err(Refused::Fault(ProcFault::NoStage)),
        Err(refused) => Err(of_disk(refused)),
    }
}

/// The folder of stages in the program's own one.
fn held_in<R: Files<File = File> + Clone + Drop>(
    rt: &R,
    alloc: Global,
    root: &Text,
    own: &Held,
) -> Result<Held, Refused>
    ensures { IfErr result (IsMemoryOr ProcFault.NoStage) }
{
    match stages(rt, alloc, root.as_str(), own) {
        Ok(held) => Ok(held),
        Err(refused) => Err(of_disk(refused)),
    }
}

/// What a refusal of the folder of stages comes to.
fn of_disk(refused: tup_disk::Refused) -> Refused
    ensures { IsMemoryOr ProcFault.NoStage result }
{
    match refused {
        tup_disk::Refused::Memory => Refused::Memory,
        tup_disk::Refused::Failed(_failure) => Refused::Fault(ProcFault::NoStage),
    }
}

/// Paths as they are shown, a line for each.
fn listed(alloc: Global, paths: &[Path]) -> Result<Vec<u8>, Refused>
    ensures list { IfOk result (λ list. list.items ≡ list_of paths.now) }
    ensures memory { IfErr result (λ refused. refused ≡ Refused.Memory) }
{
    let mut list = Vec::new(alloc);
    for path in paths {
        list_path(alloc, &mut list, path)?;
    }
    Ok(list)
}

/// Adds a path to those that are listed.
fn list_path(alloc: Global, list: &mut Vec<u8>, path: &Path) -> Result<(), Refused>
    ensures list { OnOk result (list.new.items ≡ list.old.items ++ show path.now ++ 10 ∷ []) }
    ensures memory { IfErr result (λ refused. refused ≡ Refused.Memory) }
{
    let Ok(shown) = path.show(alloc) else {
        return Err(Refused::Memory);
    };
    list.extend_from_slice(shown.as_str().as_bytes())?;
    list.push(b'\n')?;
    Ok(())
}

/// Adds a write to others.
fn add_write(writes: &mut Writes, text: &Text, content: Bytes) -> Result<(), AllocError>
    ensures { OnOk result (texts_of writes.new ≡ texts_of writes.old ++ text.now ∷ []) }
{
    writes.push((text.clone()?, content))?;
    Ok(())
}
