//! Whether the calls that read a link are traced.
//!
//! A compiler of gcc's asks by them for each folder on the way to each header, and what it asks for so it opens or looks at besides.
//! Three quarters of its calls are these, and each costs as much as the next. So they are left out where the project has no link
//! and the command looks like such a compile; and once it has ended, only programs may have run that are known to ask for nothing
//! by them alone. Else it runs once more with all calls.
use crate::programs::{shell, succeeds};
use crate::script::HAS_NO_LINK;
use crate::update::Update;
use std::fs::File;
use std::io::ErrorKind;
use std::process::Processes;
use std::rt::Files;
use std::{fs, str};
use tup_child::{Failure, Tree};
use tup_trace::{Call, Token};

/// Programs that read no link, and parts of gcc that open or look at what they ask for so.
const PLAIN: [&str; 16] = [
    "cc1", "cc1plus", "collect2", "cpp", "sh", "dash", "cat", "rm", "touch", "grep", "awk", "mawk",
    "gawk", "sort", "echo", "true",
];

/// The same of programs whose names may say for which system they work.
const PREFIXED: [&str; 7] = ["gcc", "g++", "cc", "c++", "as", "objcopy", "strip"];

/// The names of gcc's compilers, without what they are built for and their version.
const COMPILERS: [&str; 4] = ["gcc", "g++", "cc", "c++"];

/// What the commands of an update know where the project has no link, and where it has one or it can't be told.
const NONE: &str = "none";

const SOME: &str = "some";

/// Whether the command is to be traced without the calls that read a link: it looks like a compile, and the project has no link.
pub(crate) fn may_be_left_out<R: Files<File = File> + Processes + Clone + Drop>(
    tree: &Tree<R>,
    update: &Update,
    text: &str,
) -> Result<bool, Failure> {
    if !is_compile(text) {
        return Ok(false);
    }
    let known = match update.known(tree, "links")? {
        Some(known) => known,
        None => Vec::new(tree.alloc),
    };
    if known.is_empty() {
        has_none(tree, update)
    } else {
        Ok(known.as_slice() == NONE.as_bytes())
    }
}

/// Lets the commands of an update know that these calls have to be traced.
pub(crate) fn keep_all<R: Files<File = File> + Clone + Drop>(
    tree: &Tree<R>,
    update: &Update,
) -> Result<(), Failure> {
    update.note(tree, "links", SOME.as_bytes())
}

/// Whether the project has no link, which the other commands of the update are told.
fn has_none<R: Files<File = File> + Processes + Clone + Drop>(
    tree: &Tree<R>,
    update: &Update,
) -> Result<bool, Failure> {
    let mut look = shell(tree, HAS_NO_LINK)?;
    look.arg("sh")?;
    look.arg(tree.root.as_str())?;
    let has_none = succeeds(&tree.rt, &mut look);
    let known = if has_none { NONE } else { SOME };
    update.note(tree, "links", known.as_bytes())?;
    Ok(has_none)
}

/// Whether each program that was started is known to ask for nothing by reading a link alone.
pub(crate) fn are_plain<R: Files<File = File> + Clone + Drop>(
    tree: &Tree<R>,
    calls: &[Call],
) -> Result<bool, Failure> {
    for call in calls {
        if call.name.as_slice().starts_with(b"execve".as_slice())
            && !is_plain_call(tree, call.parts.as_slice())?
        {
            return Ok(false);
        }
    }
    Ok(true)
}

/// Whether the program that these parts of a call name is known so. One that isn't there wasn't started.
fn is_plain_call<R: Files<File = File> + Clone + Drop>(
    tree: &Tree<R>,
    parts: &[Token],
) -> Result<bool, Failure> {
    let Some(Token::Quoted(name)) = parts.first() else {
        return Ok(false);
    };
    let Ok(name) = str::from_utf8(name.as_slice()) else {
        return Ok(false);
    };
    let runtime = (tree.rt.clone()?, tree.alloc);
    match fs::canonicalize(&runtime, name) {
        Ok(path) => Ok(name.starts_with('/') && is_plain(path.into_string().as_str())),
        Err(e) => Ok(e.kind() == ErrorKind::NotFound || e.kind() == ErrorKind::NotADirectory),
    }
}

/// Whether a path without links is that of one of the system's programs that is known so.
fn is_plain(path: &str) -> bool {
    let Some(name) = path.rsplit('/').next() else {
        return false;
    };
    let is_system = ["/usr/bin/", "/usr/lib/", "/usr/libexec/", "/bin/", "/lib/"]
        .iter()
        .any(|front| path.starts_with(*front));
    is_system && (PLAIN.contains(&name) || PREFIXED.contains(&bare(name)))
}

/// Whether a command looks like a compile: behind what it sets its first word is a compiler, and another one says that it doesn't
/// link.
fn is_compile(text: &str) -> bool {
    let mut is_compiler = false;
    for word in text.split(is_blank) {
        if is_compiler && ["-c", "-S", "-E"].contains(&word) {
            return true;
        }
        if !is_compiler && !word.is_empty() && !is_set(word) {
            if !COMPILERS.contains(&bare(word.rsplit('/').next().unwrap_or(word))) {
                return false;
            }
            is_compiler = true;
        }
    }
    false
}

/// Whether a sign stands between words.
fn is_blank(sign: char) -> bool {
    sign == ' ' || sign == '\t' || sign == '\n'
}

/// Whether a word sets a variable.
fn is_set(word: &str) -> bool {
    match word.split_once('=') {
        Some((name, _)) => !name.contains('/') && !name.starts_with('-'),
        None => false,
    }
}

/// The name of a program without the system for which it works, and without its version.
fn bare(name: &str) -> &str {
    let name = name.trim_end_matches(|sign: char| sign == '.' || sign.is_ascii_digit());
    let name = name.strip_suffix('-').unwrap_or(name);
    name.rsplit('-').next().unwrap_or(name)
}
