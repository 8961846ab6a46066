//! A project that is made anew for each case of a table.
use crate::failing::Failing;
use crate::session::{begun_with, crew_of};
use crate::tellers::Tellers;
use std::alloc::{AllocError, Global};
use std::sync::Wait;
use std::thread::Threads;
use tup_path::{Bytes, Path, Text};
use tup_progress::Started;
use tup_rows::RowFault;
use tup_site::{MemSite, Site};
use tup_tell::{KeepThenFail, MemSink};
use tup_top::{Ran, Word, tup};

/// What is done to a project: a user sets a file or takes it away, or the program updates it.
#[derive(Drop)]
pub(crate) enum Step {
    Edit { path: Path, content: Option<Bytes> },
    Update,
}

/// What an update left: the site, its exit number, and how many commands it began.
#[derive(Drop)]
pub(crate) struct Left {
    pub(crate) site: MemSite,
    pub(crate) exit: u8,
    pub(crate) begun: usize,
}

/// A project that begins over a site whose call of this number fails, and to which these steps are done.
pub(crate) fn made<W: Threads + Wait + Sync>(
    rt: &W,
    alloc: Global,
    steps: &[Step],
    fails: u64,
) -> Result<MemSite, RowFault> {
    let mut site = begun_with(alloc, fails)?;
    for step in steps {
        site = step_done(rt, alloc, site, step)?;
    }
    Ok(site)
}

fn step_done<W: Threads + Wait + Sync>(
    rt: &W,
    alloc: Global,
    site: MemSite,
    step: &Step,
) -> Result<MemSite, RowFault> {
    match step {
        Step::Edit { path, content } => edited(alloc, site, path, content),
        Step::Update => match updated(rt, alloc, site, 1) {
            Ok(updated) => Ok(updated.site),
            Err(fault) => Err(fault),
        },
    }
}

fn edited(
    alloc: Global,
    mut site: MemSite,
    path: &Path,
    content: &Option<Bytes>,
) -> Result<MemSite, RowFault> {
    match edit(alloc, &mut site, path, content) {
        Ok(()) => Ok(site),
        Err(fault) => {
            drop(site);
            Err(fault)
        }
    }
}

fn edit(
    alloc: Global,
    site: &mut MemSite,
    path: &Path,
    content: &Option<Bytes>,
) -> Result<(), RowFault> {
    let path = path.clone()?;
    let content = match content {
        Some(content) => Some(content.clone()?),
        None => None,
    };
    match site.edit(alloc, path, content) {
        Ok(()) => Ok(()),
        Err(_) => Err(RowFault::OtherKind),
    }
}

/// Updates a project by so many runners.
pub(crate) fn updated<W: Threads + Wait + Sync>(
    rt: &W,
    alloc: Global,
    site: MemSite,
    many: u64,
) -> Result<Left, RowFault> {
    match jobs(alloc, many) {
        Ok(word) => updated_by(rt, alloc, site, &[word], many),
        Err(_) => {
            drop(site);
            Err(RowFault::Memory)
        }
    }
}

/// The word that asks for an update by so many runners.
fn jobs(alloc: Global, many: u64) -> Result<Word, AllocError> {
    Ok(Word(Text::from_string(format!(in alloc; "-j{many}")?)))
}

fn updated_by<W: Threads + Wait + Sync>(
    rt: &W,
    alloc: Global,
    site: MemSite,
    words: &[Word],
    many: u64,
) -> Result<Left, RowFault> {
    match crew_of(alloc, Failing::new(alloc, 0), many) {
        Ok(crew) => {
            let mut out = MemSink::new(alloc, Vec::new(alloc));
            let mut tellers: Tellers = Vec::new(alloc);
            let ran = tup(
                rt,
                alloc,
                words,
                site,
                crew,
                &Started::new(),
                &mut tellers,
                &mut out,
            );
            Ok(left_by(ran))
        }
        Err(_) => {
            drop(site);
            Err(RowFault::Memory)
        }
    }
}

fn left_by(ran: Ran<MemSite, Failing, KeepThenFail>) -> Left {
    Left {
        exit: ran.status.exit(),
        begun: ran.ran.len(),
        site: ran.site,
    }
}

/// All files of a site, each as its path, what it holds, and a line end behind each of both.
pub(crate) fn all_files(alloc: Global, site: &mut MemSite) -> Result<Vec<u8>, RowFault> {
    match site.list(alloc) {
        Ok(paths) => files(alloc, site, paths.as_slice()),
        Err(_) => Err(RowFault::Memory),
    }
}

/// The same of these files.
pub(crate) fn files(alloc: Global, site: &MemSite, paths: &[Path]) -> Result<Vec<u8>, RowFault> {
    let mut files = Vec::new(alloc);
    for path in paths {
        add_file(alloc, &mut files, site, path)?;
    }
    Ok(files)
}

fn add_file(
    alloc: Global,
    files: &mut Vec<u8>,
    site: &MemSite,
    path: &Path,
) -> Result<(), RowFault> {
    let line = format!(in alloc; "{path}\n")?;
    files.extend_from_slice(line.as_bytes())?;
    if let Some(content) = site.file(path) {
        files.extend_from_slice(content.as_slice())?;
        files.push(b'\n')?;
    }
    Ok(())
}
