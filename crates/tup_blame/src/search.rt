//! The files that a fault is about.
ghost use Rattle.std.specs.Prelude.{IfOk, IsTrue};
ghost use Rattle.std.specs.FinMap as finite;
ghost use Rattle.tup_path.specs.Order.{by_names};

use crate::walk::{Came, first_faulty, read};
use std::alloc::{AllocError, Global};
use std::collections::BTreeSet;
use tup_lex::ParseKind;
use tup_path::{ByPath, Bytes, Files, Path, Paths};
use tup_query::ParseFault;
use tup_readings::{Sources, Work, settings};
use tup_rule::Kind;
use tup_site::Site;

/// How many files are named at most.
const MOST: u32 = 100;

/// A file, and the line of a Tupfile whose fault it is.
#[derive(Drop)]
pub struct Culprit {
    pub file: Path,
    pub line: u32,
    pub path: Path,
}

/// The files that a fault is about: the inputs that aren't there, or the outputs where something stands that a rule may not make. It
/// names those of the same kind in the whole folder, in the order of its lines. Nothing is named where the fault is of another kind,
/// or where that can't be told.
pub fn culprits<S: Site>(
    alloc: Global,
    site: &mut S,
    owned: &[Path],
    fault: &ParseFault,
) -> Result<Vec<Culprit>, AllocError> {
    let mut all = Vec::new(alloc);
    if let Some(instead) = instead_of(&fault.kind) {
        let files = sources(alloc, site, owned)?;
        let sources = Sources::new(alloc, &files)?;
        name_all(alloc, site, &sources, fault, instead, &mut all)?;
    }
    Ok(all)
}

/// What has to stand where a fault of this kind is, if it is of what stands somewhere.
fn instead_of(kind: &ParseKind) -> Option<Kind> {
    match kind {
        ParseKind::MissingInput => Some(Kind::File),
        ParseKind::OutputIsSource | ParseKind::OutputIsDir => Some(Kind::Nothing),
        _ => None,
    }
}

/// Names the files of such faults in the folder that has the first fault.
fn name_all<S: Site>(
    alloc: Global,
    site: &mut S,
    sources: &Sources<'_>,
    fault: &ParseFault,
    instead: Kind,
    all: &mut Vec<Culprit>,
) -> Result<(), AllocError> {
    let Ok(settings) = settings(alloc, sources) else {
        return Ok(());
    };
    let mut work = Work::new(alloc, sources)?;
    let Some(dir) = first_faulty(alloc, site, sources, &settings, &mut work) else {
        return Ok(());
    };
    let mut passed = Vec::new(alloc);
    for _ in 0..MOST {
        let came = read(
            alloc,
            site,
            sources,
            &settings,
            &work,
            &dir,
            passed.as_slice(),
            instead,
        );
        if !add(came, fault, &mut passed, all)? {
            break;
        }
    }
    Ok(())
}

/// Adds the file of a fault, where it is of the same kind and of what stands there. Where the last one wasn't what the fault is
/// about, that is taken back. Returns whether another was found.
fn add(
    came: Came,
    fault: &ParseFault,
    passed: &mut Vec<Path>,
    all: &mut Vec<Culprit>,
) -> Result<bool, AllocError> {
    let Came::Faulty(found, last) = came else {
        return Ok(false);
    };
    let Some((path, told)) = last else {
        return Ok(false);
    };
    if found.kind != fault.kind {
        if instead_of(&found.kind).is_some() && passed.contains(&path) {
            // It was an output, and not an input that isn't there.
            all.pop();
        }
        return Ok(false);
    }
    if instead_of(&found.kind) == Some(told) {
        // All is well with it: the fault is of something else.
        return Ok(false);
    }
    passed.push(path.clone()?)?;
    all.push(Culprit {
        file: found.file.clone()?,
        line: found.line,
        path,
    })?;
    Ok(true)
}

/// The files of a site beside those that are owned, as sources, in the order of paths. Of none but tup.config it has the content.
fn sources<S: Site>(alloc: Global, site: &mut S, owned: &[Path]) -> Result<Files, AllocError>
    ensures { IfOk result (λ files. IsTrue (finite.is_sorted by_names files)) }
{
    let apart = set_of(alloc, owned)?;
    let paths = all_paths(alloc, site);
    let mut files = ByPath::new(alloc);
    for path in paths.into_vec() {
        if !apart.contains(&path) {
            add_source(alloc, site, &mut files, path)?;
        }
    }
    Ok(files.into_items(alloc)?)
}

/// The paths of all files of a site; none where it fails.
fn all_paths<S: Site>(alloc: Global, site: &mut S) -> Paths {
    match site.list(alloc) {
        Ok(paths) => paths,
        Err(_) => Paths::new(alloc),
    }
}

/// Adds a source.
fn add_source<S: Site>(
    alloc: Global,
    site: &mut S,
    files: &mut ByPath<Bytes>,
    path: Path,
) -> Result<(), AllocError> {
    let content = content_of(alloc, site, &path);
    files.insert(path, content)?;
    Ok(())
}

/// What is taken for the content of a source: its own of tup.config in the top folder, and nothing of all others.
fn content_of<S: Site>(alloc: Global, site: &mut S, path: &Path) -> Bytes {
    match path.names() {
        [name] if name.as_str() == "tup.config" => match site.get(alloc, path) {
            Ok(Some(content)) => content,
            _ => Bytes::new(Vec::new(alloc)),
        },
        _ => Bytes::new(Vec::new(alloc)),
    }
}

/// The set of paths.
fn set_of(alloc: Global, paths: &[Path]) -> Result<BTreeSet<Path>, AllocError> {
    let mut set = BTreeSet::new(alloc);
    for path in paths {
        set.insert(path.clone()?)?;
    }
    Ok(set)
}
