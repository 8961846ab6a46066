//! The stage before the command: the upper folder, which takes what it writes and hides what it mustn't see, and the folder
//! that the overlay works in.
use crate::programs::{command, shell, succeeds};
use crate::script::REMAKE;
use crate::upper::written;
use std::fs;
use std::fs::{File, Permissions};
use std::io::ErrorKind;
use std::os::unix::fs::{FileTypeExt, MetadataExt, PermissionsExt};
use std::process::Processes;
use std::rt::Files;
use tup_child::{Failure, Tree};
use tup_disk::{Operation, Standing, told};
use tup_path::{Path, Text};

/// Makes the stage ready for a command: makes its folders and those of the rule's outputs, and hides the program's own folder and
/// the outputs from before. A stage that isn't fit for that leaves the hiding to the script.
pub(crate) fn prepare<R: Files<File = File> + Processes + Clone + Drop>(
    tree: &Tree<R>,
    is_fit: bool,
) -> Result<(), Failure> {
    make_folders(tree)?;
    if is_fit {
        make_mark(tree)?;
    }
    for path in &tree.own {
        if make_above(tree, path)? && is_fit {
            hide(tree, path)?;
        }
    }
    Ok(())
}

/// The failure of a stage that can't be made.
fn refused() -> Failure {
    Failure::Because("the stage can't be made")
}

/// Makes the two folders. Where a stopped command left them, a shell removes them first.
fn make_folders<R: Files<File = File> + Processes + Clone + Drop>(
    tree: &Tree<R>,
) -> Result<(), Failure> {
    if makes(tree, "up")? && makes(tree, "wk")? {
        return Ok(());
    }
    let mut shell = shell(tree, REMAKE)?;
    if succeeds(&tree.rt, &mut shell) {
        Ok(())
    } else {
        Err(refused())
    }
}

/// Makes a folder of the stage, and returns whether it could.
fn makes<R: Files<File = File> + Clone + Drop>(
    tree: &Tree<R>,
    name: &str,
) -> Result<bool, Failure> {
    let place = tree.staged(name)?;
    Ok(fs::create_dir(&tree.rt, place.as_str()).is_ok())
}

/// Makes the mark that hides the program's own folder: a second name of the one that the project keeps.
fn make_mark<R: Files<File = File> + Processes + Clone + Drop>(
    tree: &Tree<R>,
) -> Result<(), Failure> {
    let mark = mark(tree)?;
    let kept = kept_mark(tree)?;
    if is_mark(tree, kept.as_str())
        && fs::hard_link(&tree.rt, kept.as_str(), mark.as_str()).is_ok()
    {
        return Ok(());
    }
    make_first_mark(tree)?;
    // Where it can't be kept, the next command makes another one.
    drop(fs::hard_link(&tree.rt, mark.as_str(), kept.as_str()));
    Ok(())
}

/// Makes a mark by a program, since the library has no call for it.
fn make_first_mark<R: Files<File = File> + Processes + Clone + Drop>(
    tree: &Tree<R>,
) -> Result<(), Failure> {
    let mut mknod = command(tree, "mknod", ["up/.tup", "c", "0", "0"].as_slice())?;
    if succeeds(&tree.rt, &mut mknod) {
        Ok(())
    } else {
        Err(refused())
    }
}

/// Whether a mark stands at a place.
fn is_mark<R: Files<File = File> + Clone + Drop>(tree: &Tree<R>, place: &str) -> bool {
    match fs::symlink_metadata(&tree.rt, place) {
        Ok(found) => found.file_type().is_char_device() && found.rdev() == 0,
        Err(_) => false,
    }
}

/// The place of the mark that the project keeps for its commands.
fn kept_mark<R: Files<File = File> + Clone + Drop>(tree: &Tree<R>) -> Result<String, Failure> {
    let root = tree.root.as_str();
    Ok(format!(in tree.alloc; "{root}/.tup/mark")?)
}

/// The place of the mark.
fn mark<R: Files<File = File> + Clone + Drop>(tree: &Tree<R>) -> Result<String, Failure> {
    tree.staged("up/.tup")
}

/// Hides an output from before, if there is one, by a hard link to the mark.
fn hide<R: Files<File = File> + Clone + Drop>(tree: &Tree<R>, path: &Path) -> Result<(), Failure> {
    let source = tree.source(path)?;
    if fs::symlink_metadata(&tree.rt, source.as_str()).is_ok() {
        link(tree, path)?;
    }
    Ok(())
}

/// Links the mark to a path.
fn link<R: Files<File = File> + Clone + Drop>(tree: &Tree<R>, path: &Path) -> Result<(), Failure> {
    let mark = mark(tree)?;
    let place = written(tree, path)?;
    let linked = fs::hard_link(&tree.rt, mark.as_str(), place.as_str());
    Ok(told(tree.alloc, Operation::Make, place.as_str(), linked)?)
}

/// Makes the folders above a path, as they are in the project, and new where they aren't there. Gives whether they are folders:
/// where something else stands none is made.
fn make_above<R: Files<File = File> + Clone + Drop>(
    tree: &Tree<R>,
    path: &Path,
) -> Result<bool, Failure> {
    match path.names() {
        [above @ .., _] => make_all(tree, above),
        [] => Ok(true),
    }
}

/// Makes the folders that names lead through, as far as nothing else stands there.
fn make_all<R: Files<File = File> + Clone + Drop>(
    tree: &Tree<R>,
    names: &[Text],
) -> Result<bool, Failure> {
    let mut source = String::from_str(tree.alloc, tree.root.as_str())?;
    let mut place = tree.staged("up")?;
    for name in names {
        add_name(&mut source, name)?;
        add_name(&mut place, name)?;
        if !make_as(tree, source.as_str(), place.as_str())? {
            return Ok(false);
        }
    }
    Ok(true)
}

/// Adds a name to a place.
fn add_name(place: &mut String, name: &Text) -> Result<(), Failure> {
    place.push('/')?;
    place.push_str(name.as_str())?;
    Ok(())
}

/// Makes a folder with the mode of that in the project, if there is one. Gives whether nothing else stands there.
fn make_as<R: Files<File = File> + Clone + Drop>(
    tree: &Tree<R>,
    source: &str,
    place: &str,
) -> Result<bool, Failure> {
    match tree.at(source)? {
        Standing::Folder => {
            if is_made(tree, place)? {
                give_mode(tree, source, place)?;
            }
            Ok(true)
        }
        Standing::Nothing => {
            is_made(tree, place)?;
            Ok(true)
        }
        Standing::File { .. } | Standing::Link | Standing::Other => Ok(false),
    }
}

/// Makes a folder, and gives whether it is new.
fn is_made<R: Files<File = File> + Clone + Drop>(
    tree: &Tree<R>,
    place: &str,
) -> Result<bool, Failure> {
    match fs::create_dir(&tree.rt, place) {
        Err(e) if e.kind() == ErrorKind::AlreadyExists => Ok(false),
        made => {
            told(tree.alloc, Operation::Make, place, made)?;
            Ok(true)
        }
    }
}

/// Gives a folder the mode of a source.
fn give_mode<R: Files<File = File> + Clone + Drop>(
    tree: &Tree<R>,
    source: &str,
    place: &str,
) -> Result<(), Failure> {
    let found = fs::metadata(&tree.rt, source);
    let mode = told(tree.alloc, Operation::Look, source, found)?.permissions();
    let set = fs::set_permissions(&tree.rt, place, mode);
    Ok(told(tree.alloc, Operation::Mode, place, set)?)
}

/// Gives the owner access to the folders that the overlay works in. The kernel makes them without permissions, so that only root
/// could remove the stage of a stopped command. What can't be opened is skipped: the command isn't stopped for it.
pub(crate) fn open_work<R: Files<File = File> + Clone + Drop>(tree: &Tree<R>) {
    for name in [
        "wk/work",
        "wk/index",
        "wk/work/incompat",
        "wk/work/incompat/volatile",
    ] {
        if let Ok(place) = tree.staged(name) {
            let open = Permissions::from_mode(0o700);
            drop(fs::set_permissions(&tree.rt, place.as_str(), open));
        }
    }
}
