//! What standard error says of a fault in a file that says what to build: the file and the line, as editors read them, and what is
//! wrong there.
use crate::top::Top;
use std::alloc::{AllocError, Global};
use tup_blame::{Culprit, culprits};
use tup_ledger::{open, owned_paths};
use tup_lex::ParseKind;
use tup_path::{Bytes, Path, Paths};
use tup_query::ParseFault;
use tup_site::Site;
use tup_top::{Status, What};

/// How many bytes of a line are shown at most.
const SHOWN: usize = 300;

/// Says what a fault is about, where the status is one. What can't be found out isn't said.
pub(crate) fn explain<S: Site>(
    rt: HostRuntime,
    alloc: Global,
    top: &Top,
    site: &mut S,
    status: &Status,
) {
    // Without memory nothing is said: the exit number says as much.
    drop(match status {
        Status::Parse { fault } => explain_fault(rt, alloc, top, site, fault),
        Status::Limit {
            what: What::FileSize,
            number,
        } => name_large(rt, alloc, top, site, *number),
        _ => Ok(()),
    });
}

/// Says what a fault of a Tupfile is about: each file, where it is of some, or else the line.
fn explain_fault<S: Site>(
    rt: HostRuntime,
    alloc: Global,
    top: &Top,
    site: &mut S,
    fault: &ParseFault,
) -> Result<(), AllocError> {
    let all = files_of(alloc, site, fault)?;
    for one in all.as_slice() {
        print_named(rt, alloc, top, one, fault)?;
    }
    if all.is_empty() {
        return print_line(rt, alloc, top, site, fault);
    }
    Ok(())
}

/// The files that a fault is about.
fn files_of<S: Site>(
    alloc: Global,
    site: &mut S,
    fault: &ParseFault,
) -> Result<Vec<Culprit>, AllocError> {
    match owned(alloc, site) {
        Some(owned) => culprits(alloc, site, owned.as_slice(), fault),
        None => Ok(Vec::new(alloc)),
    }
}

/// The paths that the store of a site lists.
fn owned<S: Site>(alloc: Global, site: &mut S) -> Option<Paths> {
    let graph = open(alloc, site).ok()?;
    owned_paths(alloc, graph.nodes()).ok()
}

/// Prints a file that a fault is about.
fn print_named(
    rt: HostRuntime,
    alloc: Global,
    top: &Top,
    culprit: &Culprit,
    fault: &ParseFault,
) -> Result<(), AllocError> {
    let Culprit { file, line, path } = culprit;
    let why = match &fault.kind {
        ParseKind::MissingInput if path.is_below(&fault.dir) => {
            "no source, and no rule above makes it"
        }
        ParseKind::MissingInput => "no source, and no rule makes it",
        ParseKind::OutputIsDir => "a folder stands there",
        _ => "it is there, and tup didn't make it: remove it, or keep it and drop the rule",
    };
    let file = place_of(alloc, top, file)?;
    let path = place_of(alloc, top, path)?;
    // Words that can't be printed change nothing: the exit number says as much.
    drop(eprintln!(rt; "{file}:{line}: {path}: {why}"));
    Ok(())
}

/// Prints the line of a fault.
fn print_line<S: Site>(
    rt: HostRuntime,
    alloc: Global,
    top: &Top,
    site: &mut S,
    fault: &ParseFault,
) -> Result<(), AllocError> {
    let ParseFault {
        file,
        line,
        kind,
        ..
    } = fault;
    let place = place_of(alloc, top, file)?;
    let content = match site.get(alloc, file) {
        Ok(Some(content)) => content,
        _ => Bytes::new(Vec::new(alloc)),
    };
    let text = line_of(&content, *line);
    // Words that can't be printed change nothing: the exit number says as much.
    drop(match why(kind, text) {
        Some(why) => eprintln!(rt; "{place}:{line}: {why}: {text}"),
        None if text.is_empty() || is_users(kind) => eprintln!(rt; "{place}:{line}: {kind}"),
        None => eprintln!(rt; "{place}:{line}: {kind}: {text}"),
    });
    Ok(())
}

/// Whether a fault is the user's own, whose words are all that there is to say.
fn is_users(kind: &ParseKind) -> bool {
    matches!(kind, ParseKind::UserError(_))
}

/// A line of a text, counted from 1, without blanks at its ends; what is too long to be shown is cut off.
fn line_of(content: &Bytes, line: u32) -> &str {
    let Ok(text) = str::from_utf8(content.as_slice()) else {
        return "";
    };
    let line = text
        .lines()
        .nth(line.saturating_sub(1) as usize)
        .unwrap_or("")
        .trim();
    line.get(..SHOWN).unwrap_or(line)
}

/// What is wrong with a line whose fault is of this kind, where more is to be said than its name.
fn why(kind: &ParseKind, text: &str) -> Option<&'static str> {
    match kind {
        ParseKind::NoArrow => Some("a rule wants two arrows, as in `: in |> command |> out`"),
        ParseKind::UnknownLine if is_of_tup(text) => Some("this word of tup isn't in this version"),
        ParseKind::UnknownLine => Some(
            "it is neither a rule, nor does it set, define or ask anything",
        ),
        ParseKind::DuplicateOutput => Some("this rule, or one above, makes this output already"),
        ParseKind::ForeignOutput => Some("tup may make no file there"),
        ParseKind::OutputBelowFile => Some(
            "a file or another output is where one of its folders has to be, or an output is below it",
        ),
        ParseKind::UnknownFlag => Some(
            "there is no such percent flag; a percent sign is written %%",
        ),
        ParseKind::NoSuchMacro => Some("no macro of this name is defined above"),
        ParseKind::NoSuchBin => Some("no rule above gives to this bin"),
        _ => None,
    }
}

/// Whether a line begins with a word that tup has and this version doesn't.
fn is_of_tup(line: &str) -> bool {
    matches!(
        line.split_ascii_whitespace().next(),
        Some("export" | "import" | "run" | "preload" | ".gitignore")
    )
}

/// Names the files that are larger than a file may be.
fn name_large<S: Site>(
    rt: HostRuntime,
    alloc: Global,
    top: &Top,
    site: &mut S,
    most: u64,
) -> Result<(), AllocError> {
    let Ok(paths) = site.list(alloc) else {
        return Ok(());
    };
    for path in paths.as_slice() {
        let place = place_of(alloc, top, path)?;
        if let Some(len) = len_of(rt, place.as_str()) {
            if len > most {
                // Words that can't be printed change nothing: the exit number says as much.
                drop(eprintln!(rt; "tup: {place} has {len} bytes, and a file has {most} at most"));
            }
        }
    }
    Ok(())
}

/// How many bytes the file at a place has, if there is one.
fn len_of(rt: HostRuntime, place: &str) -> Option<u64> {
    let found = std::fs::symlink_metadata(&rt, place).ok()?;
    if found.is_file() {
        Some(found.len())
    } else {
        None
    }
}

/// The place of a path, as the user names it from where he is.
fn place_of(alloc: Global, top: &Top, path: &Path) -> Result<String, AllocError> {
    match path.show(alloc) {
        Ok(shown) => top.place(alloc, shown.as_str()),
        Err(_) => Err(AllocError),
    }
}
