//! What older commands left is removed as far as that can be. No stage depends on it.
//!
//! It is removed through the open folder of stages, in which nothing is mounted, and no link is followed.
use crate::stages::Stages;
use std::alloc::{AllocError, Global};
use std::fs;
use std::fs::File;
use std::io::ErrorKind;
use std::process::{Command, Processes};
use std::rt::Files;
use tup_disk::Held;

/// Opens the folders in one to their owner, and removes all. It starts in the folder of stages.
const OPEN_AND_REMOVE: &str = "\
[ -h \"./$1\" ] || chmod -R u+rwx -- \"./$1\" 2>/dev/null
rm -rf --one-file-system -- \"./$1\" 2>/dev/null\n";

/// Removes the stages of other updates.
pub(crate) fn remove_others<R: Files<File = File> + Processes + Clone + Drop>(
    runtime: &(R, Global),
    folder: &Held,
    stages: &Stages,
) -> Result<(), AllocError> {
    remove_all(runtime, folder, stages, false)
}

/// Removes the stages of this update.
pub(crate) fn remove_own<R: Files<File = File> + Processes + Clone + Drop>(
    runtime: &(R, Global),
    folder: &Held,
    stages: &Stages,
) -> Result<(), AllocError> {
    remove_all(runtime, folder, stages, true)
}

/// Removes the stages of this update, or else all others.
fn remove_all<R: Files<File = File> + Processes + Clone + Drop>(
    runtime: &(R, Global),
    folder: &Held,
    stages: &Stages,
    are_own: bool,
) -> Result<(), AllocError> {
    let above = folder.through(runtime.1)?;
    let Ok(entries) = fs::read_dir(runtime, above.as_str()) else {
        return Ok(());
    };
    for entry in entries {
        if let Ok(entry) = entry {
            if stages.have(entry.file_name()) == are_own {
                remove(runtime, folder, entry.file_name())?;
            }
        }
    }
    Ok(())
}

/// Removes what has a name in the folder of stages.
pub(crate) fn remove<R: Files<File = File> + Processes + Clone + Drop>(
    runtime: &(R, Global),
    folder: &Held,
    name: &str,
) -> Result<(), AllocError> {
    let place = folder.inside(runtime.1, name)?;
    match fs::remove_dir_all(runtime, place.as_str()) {
        Err(e) if e.kind() == ErrorKind::NotADirectory => {
            drop(fs::remove_file(runtime, place.as_str()));
            Ok(())
        }
        Err(e) if e.kind() == ErrorKind::PermissionDenied => remove_closed(runtime, folder, name),
        _ => Ok(()),
    }
}

/// Removes a folder with folders in it that let nobody in: a program that was killed may have left some.
fn remove_closed<R: Files<File = File> + Processes + Clone + Drop>(
    runtime: &(R, Global),
    folder: &Held,
    name: &str,
) -> Result<(), AllocError> {
    let mut shell = Command::new(runtime.1, "sh")?;
    for word in ["-c", OPEN_AND_REMOVE, "sh", name] {
        shell.arg(word)?;
    }
    shell.current_dir(folder.through(runtime.1)?)?;
    drop(shell.status(&runtime.0));
    Ok(())
}
