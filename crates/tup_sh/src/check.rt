//! `tup_sh --check`: whether commands can be run here, by what, and what has to be allowed.
use crate::programs::add_words;
use crate::script::CHECK;
use crate::way::{Way, way_of};
use std::alloc::Global;
use std::env;
use std::env::Env;
use std::fs::File;
use std::process::{Command, Processes};
use std::rt::Files;
use tup_child::Failure;
use tup_path::Text;

/// The folder that is to be checked, where the words of the program ask for that: the working folder if they name none.
pub(crate) fn folder<R: Env + Clone + Drop>(rt: &R, alloc: Global) -> Option<Text> {
    let mut args = env::args(&(rt, alloc)).ok()?;
    args.next()?;
    if args.next()?.as_str() != "--check" {
        return None;
    }
    let folder = match args.next() {
        Some(folder) => Text::from_string(folder),
        None => Text::from_str(alloc, ".").ok()?,
    };
    if args.next().is_some() {
        return None;
    }
    Some(folder)
}

/// Prints what commands in a folder need, a line each, and whether one could be run; gives the exit number.
pub(crate) fn look<R: Files<File = File> + Processes + Clone + Drop>(
    rt: &R,
    alloc: Global,
    folder: &Text,
) -> Result<u8, Failure> {
    let program = env::current_exe(&(rt.clone()?, alloc))?;
    let program = program.into_string();
    let mut shell = Command::new(alloc, "sh")?;
    let who = match way_of(rt, alloc)? {
        Way::Root => "root",
        Way::User => "user",
    };
    let words = ["-c", CHECK, "sh", folder.as_str(), program.as_str(), who];
    add_words(&mut shell, words.as_slice())?;
    let status = shell.status(rt)?;
    Ok(if status.success() { 0 } else { 1 })
}
