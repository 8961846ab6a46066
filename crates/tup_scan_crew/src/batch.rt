//! Files that are digested together.
ghost use Rattle.std.specs.Prelude.{◌≡◌, ◌++◌, ◌∷◌, ◌<◌, [], map, IfOk, OnOk};
ghost use Rattle.tup_scan_crew.specs.Batch.{digested, stamps_so_far, with_stamp};

use std::alloc::{AllocError, Global};
use std::thread::Threads;
use std::{mem, thread};
use tup_path::{Bytes, Path};
use tup_scan::{Pulse, Stamps};
use tup_stamp::{Stamp, stamp_of};

/// The most files of a batch.
const MOST_FILES: usize = 1024;

/// A batch with so many bytes is full: so much memory it takes, and that of one file.
const MOST_BYTES: usize = 16_777_216;

/// A batch of less bytes is digested in less time than threads take to start.
const FEW_BYTES: usize = 262_144;

/// A file that was read, or whose stamp the site told.
#[derive(Drop)]
pub(crate) struct File {
    pub(crate) path: Path,
    /// Its place in the list of all files.
    pub(crate) place: u32,
    /// What was read; of a file whose stamp the site told nothing was.
    pub(crate) content: Option<Bytes>,
    /// The stamp that the site told, or that of the content, once it is digested.
    pub(crate) stamp: Stamp,
}

impl File {
    /// How many bytes were read.
    fn bytes(&self) -> usize {
        match &self.content {
            Some(content) => content.as_slice().len(),
            None => 0,
        }
    }
}

/// The stamps of files, and the files after these that were read and aren't digested yet.
#[derive(Drop)]
pub(crate) struct Batch {
    stamps: Stamps,
    files: Vec<File>,
    /// How many bytes the files of the batch have.
    bytes: usize,
}

impl Batch {
    /// No file is read yet.
    pub(crate) fn new(alloc: Global) -> Batch
        ensures { stamps_so_far result ≡ [] }
    {
        Batch {
            stamps: Stamps::new(alloc),
            files: Vec::new(alloc),
            bytes: 0,
        }
    }

    /// Adds a file, and digests the batch where it is full then. A stamp that the site told has to wait only for those
    /// before it.
    pub(crate) fn add<W: Threads + Sync, P: Pulse>(
        &mut self,
        rt: &W,
        alloc: Global,
        file: File,
        pulse: &P,
        workers: usize,
    ) -> Result<(), AllocError>
        ensures { OnOk result (stamps_so_far self.new ≡ stamps_so_far self.old ++ digested file ∷ []) }
    {
        if file.content.is_none() && self.files.is_empty() {
            self.stamps.push((file.path, file.stamp))?;
            return Ok(());
        }
        self.bytes = self.bytes.saturating_add(file.bytes());
        self.files.push(file)?;
        if self.files.len() < MOST_FILES && self.bytes < MOST_BYTES {
            return Ok(());
        }
        self.digest(rt, alloc, pulse, workers)
    }

    /// All stamps, once the last files are digested.
    pub(crate) fn finish<W: Threads + Sync, P: Pulse>(
        mut self,
        rt: &W,
        alloc: Global,
        pulse: &P,
        workers: usize,
    ) -> Result<Stamps, AllocError>
        ensures { IfOk result (λ stamps. stamps ≡ stamps_so_far self) }
    {
        self.digest(rt, alloc, pulse, workers)?;
        Ok(self.stamps)
    }

    /// Digests the files of the batch, which is empty then.
    fn digest<W: Threads + Sync, P: Pulse>(
        &mut self,
        rt: &W,
        alloc: Global,
        pulse: &P,
        workers: usize,
    ) -> Result<(), AllocError>
        ensures same { OnOk result (stamps_so_far self.new ≡ stamps_so_far self.old) }
        ensures empty { OnOk result (self.new.files.items ≡ []) }
    {
        let mut files = mem::replace(&mut self.files, Vec::new(alloc));
        digest_all(
            rt,
            files.as_mut_slice(),
            pulse,
            threads_for(self.bytes, workers),
        );
        self.bytes = 0;
        add_stamps(&mut self.stamps, files)
    }
}

/// In how many threads so many bytes are digested.
fn threads_for(bytes: usize, workers: usize) -> usize
    ensures { 0 < result }
{
    if bytes < FEW_BYTES { 1 } else { workers.max(1) }
}

/// Digests files, in so many threads at most.
fn digest_all<W: Threads + Sync, P: Pulse>(rt: &W, files: &mut [File], pulse: &P, threads: usize)
    requires { 0 < threads }
    ensures { map with_stamp files.new ≡ map digested files.old }
{
    thread::for_each_mut(
        rt,
        files,
        threads,
        &|_, file: &mut File|
            ensures { with_stamp file.exit.now ≡ digested file.entry.now }
        { digest_file(file, pulse) },
    );
}

/// Digests one file, once it was told to the pulse. One whose stamp the site told stays as it is.
fn digest_file<P: Pulse>(file: &mut File, pulse: &P)
    ensures { with_stamp file.new ≡ digested file.old }
{
    let Some(content) = &file.content else {
        return;
    };
    pulse.pass(file.place);
    file.stamp = stamp_of(content.as_slice());
}

/// Adds the stamps of files to those that are there.
fn add_stamps(stamps: &mut Stamps, files: Vec<File>) -> Result<(), AllocError>
    ensures { OnOk result (stamps.new ≡ stamps.old ++ map with_stamp files.items) }
{
    for file in files {
        stamps.push((file.path, file.stamp))?;
    }
    Ok(())
}
