//! What a program prints, kept in a file until it has ended.
//!
//! Its standard output and its standard error are one pipe, so all that it prints keeps its order. They aren't the file
//! itself: a shell that opens `/dev/stderr` to write there would empty it.
ghost use Rattle.std.specs.Prelude.{IfErr};
ghost use Rattle.tup_proc_runner.specs.Refused.{IsMemoryOr, IsOfRun};

use crate::fault::{ProcFault, Refused};
use crate::watch::Watch;
use libc::net::{POLLIN, poll};
use libc::types::pollfd;
use std::alloc::Global;
use std::fs::File;
use std::io;
use std::io::{ErrorKind, PipeReader, Read, Write, pipe};
use std::os::fd::AsRawFd;
use std::process::{Child, Command, OpenProcess, Processes};
use std::rt::Files;
use tup_path::Text;

/// For how many milliseconds what is printed is waited for at once.
const PATIENCE: i32 = 100;

/// How often is taken what comes once the program has ended. A pipe holds 64 KB, which eight times take: so all that the
/// program itself printed is kept.
const LATE: u32 = 16;

/// Where what the programs of a runner print goes.
#[derive(Drop)]
pub(crate) struct Printing {
    /// The file that keeps it until the program has ended. Without one it goes where this program's own goes.
    pub(crate) place: Option<Text>,
    /// Who shows the file where this program is killed, once there was anything to keep.
    pub(crate) watch: Option<Watch>,
}

impl Printing {
    /// Runs a program to its end. Where it prints nothing that is kept, no file is made.
    pub(crate) fn run<R: Files<File = File> + Processes>(
        &mut self,
        rt: &R,
        alloc: Global,
        command: Command,
    ) -> Result<(), Refused>
        ensures { IfErr result IsOfRun }
    {
        match &self.place {
            Some(place) => {
                let place = place.as_str();
                run_kept(rt, alloc, command, place, &mut self.watch)
            }
            None => run_through(rt, command),
        }
    }
}

/// Runs a program to its end.
fn run_through<R: Processes>(rt: &R, mut command: Command) -> Result<(), Refused>
    ensures { IfErr result (IsMemoryOr ProcFault.NotStarted) }
{
    match command.status(rt) {
        Ok(_) => Ok(()),
        Err(e) => Err(Refused::of(&e, ProcFault::NotStarted)),
    }
}

/// Runs a program to its end, and keeps what it prints in the file at a place.
fn run_kept<R: Files<File = File> + Processes>(
    rt: &R,
    alloc: Global,
    command: Command,
    place: &str,
    watch: &mut Option<Watch>,
) -> Result<(), Refused>
    ensures { IfErr result IsOfRun }
{
    let mut printed = Printed {
        rt,
        alloc,
        place,
        watch,
        file: None,
    };
    match piped(rt, command) {
        Ok((child, reader)) => printed.follow(child, reader),
        Err(e) => Err(Refused::of(&e, ProcFault::NotStarted)),
    }
}

/// Starts a program, and gives the end of the pipe that it prints into. Its other end is the program's alone.
fn piped<R: Files<File = File> + Processes>(
    rt: &R,
    mut command: Command,
) -> io::Result<(Child<R::Started>, PipeReader)> {
    let (reader, writer) = pipe(rt)?;
    command.stdout(writer.try_clone()?);
    command.stderr(writer);
    Ok((command.spawn(rt)?, reader))
}

/// Whether what was printed was kept.
fn answer(kept: &io::Result<()>) -> Result<(), Refused>
    ensures { IfErr result IsOfRun }
{
    match kept {
        Ok(()) => Ok(()),
        Err(e) => Err(Refused::of(e, ProcFault::NoStage)),
    }
}

/// What a program prints, and the file that keeps it, once there is something.
#[derive(Drop)]
struct Printed<'a, R: Files<File = File> + Processes> {
    rt: &'a R,
    alloc: Global,
    place: &'a str,
    watch: &'a mut Option<Watch>,
    file: Option<File>,
}

impl<R: Files<File = File> + Processes> Printed<'_, R> {
    /// Follows a program to its end.
    fn follow(&mut self, mut child: Child<R::Started>, reader: PipeReader) -> Result<(), Refused>
        ensures { IfErr result IsOfRun }
    {
        let kept = self.keep(&mut child, reader);
        match child.wait() {
            Ok(_) => answer(&kept),
            Err(e) => Err(Refused::of(&e, ProcFault::NotStarted)),
        }
    }

    /// Keeps what comes until the program and all that it has left running have closed the pipe, or the program has ended and
    /// the others are silent for a while or have gone on for long.
    fn keep<P: OpenProcess>(
        &mut self,
        child: &mut Child<P>,
        mut reader: PipeReader,
    ) -> io::Result<()> {
        if self.keep_all(child, &mut reader)? {
            self.keep_late(&mut reader)?;
        }
        Ok(())
    }

    /// Keeps what comes while the program runs; returns whether more may come.
    fn keep_all<P: OpenProcess>(
        &mut self,
        child: &mut Child<P>,
        reader: &mut PipeReader,
    ) -> io::Result<bool> {
        for _ in 0..u64::MAX {
            if has_ended(child) {
                return Ok(true);
            }
            if has_come(reader) && !self.take(reader)? {
                return Ok(false);
            }
        }
        Ok(true)
    }

    /// Keeps what comes behind the end of the program: what it left in the pipe, and what others print.
    fn keep_late(&mut self, reader: &mut PipeReader) -> io::Result<()> {
        for _ in 0..LATE {
            if !has_come(reader) || !self.take(reader)? {
                return Ok(());
            }
        }
        Ok(())
    }

    /// Keeps what has come; returns whether more may come.
    fn take(&mut self, reader: &mut PipeReader) -> io::Result<bool> {
        let mut bytes = [0; 8192];
        match reader.read(bytes.as_mut_slice()) {
            Ok(0) => Ok(false),
            Ok(len) => {
                self.add(&bytes[..len])?;
                Ok(true)
            }
            Err(e) if e.kind() == ErrorKind::Interrupted => Ok(true),
            Err(e) => Err(e),
        }
    }

    /// Adds bytes to what is kept.
    fn add(&mut self, bytes: &[u8]) -> io::Result<()> {
        if self.file.is_none() {
            self.begin()?;
        }
        match &mut self.file {
            Some(file) => file.write_all(bytes),
            None => Ok(()),
        }
    }

    /// Makes the file, and has it watched.
    fn begin(&mut self) -> io::Result<()> {
        if self.watch.is_none() {
            // Without one, all is kept as well: it is lost where this program is killed.
            *self.watch = Watch::start(self.rt, self.alloc, self.place).ok();
        }
        self.file = Some(File::create(self.rt, self.place)?);
        Ok(())
    }
}

/// Whether something has come out of a pipe, or its end, within a while.
fn has_come(reader: &PipeReader) -> bool {
    let mut asked = [pollfd {
        fd: reader.as_raw_fd(),
        events: POLLIN,
        revents: 0,
    }];
    poll(asked.as_mut_slice(), PATIENCE) > 0
}

/// Whether a program has ended, as far as the system tells.
fn has_ended<P: OpenProcess>(child: &mut Child<P>) -> bool {
    matches!(child.try_wait(), Ok(Some(_)))
}
