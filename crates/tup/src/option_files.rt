//! The files that hold the options of a project, in its top folder.
//!
//! They are `.tup/options` and, after it, `Tupfile.ini`. They say how the site is used, so they are read
//! before there is one.
use crate::options::{Fault, Options};
use crate::own::Own;
use crate::top::{SHARED_OPTIONS, Top};
use crate::{makers, shown, told};
use std::alloc::{AllocError, Global};
use std::fs;
use std::io::ErrorKind;
use tup_disk::{Failure, Operation, Refused};
use tup_fs::Syncs;
use tup_path::Text;
use tup_top::{Status, Word};

/// The options of a project; or else the exit number, after the reason was printed.
pub(crate) fn read(rt: HostRuntime, alloc: Global, top: &Top) -> Result<Options, u8> {
    let own = read_own(rt, alloc, top)?;
    if !top.is_shared {
        return Ok(own);
    }
    let Ok(place) = top.place(alloc, SHARED_OPTIONS) else {
        return Err(told(&rt, Status::Memory));
    };
    let shared = read_file(rt, alloc, top, place.as_str())?;
    Ok(own.before(shared))
}

/// The options of this checkout.
fn read_own(rt: HostRuntime, alloc: Global, top: &Top) -> Result<Options, u8> {
    let Ok(own) = Own::of(rt, alloc, top, Syncs::Done) else {
        return Err(told(&rt, Status::Memory));
    };
    let read = match own.has_options() {
        Ok(true) => read_file(rt, alloc, top, own.options.as_str()),
        Ok(false) => Ok(Options::none()),
        Err(refused) => Err(failed(rt, refused)),
    };
    if read.is_err() {
        name_maker(rt, alloc, top, &own);
    }
    read
}

/// Says who else made the store, if there is one: the options may be those of that program, which keeps them at the same place.
fn name_maker(rt: HostRuntime, alloc: Global, top: &Top, own: &Own) {
    if let Ok(true) = own.has_store() {
        makers::name_maker(rt, alloc, top);
    }
}

/// The options in a file at a place, none where there is no file.
fn read_file(rt: HostRuntime, alloc: Global, top: &Top, place: &str) -> Result<Options, u8> {
    match fs::read_to_string(&rt, place) {
        Ok(text) => read_text(rt, alloc, top, place, text.as_str()),
        Err(e) if is_no_file(e.kind()) => Ok(Options::none()),
        Err(e) if e.kind() == ErrorKind::InvalidData => {
            // Words that can't be printed change nothing: the exit number says as much.
            drop(eprintln!(rt; "tup: {place}: unknown word that isn't UTF-8"));
            Err(2)
        }
        Err(e) => {
            let failure = Failure::new(alloc, Operation::Read, place, e);
            Err(failed(rt, Refused::Failed(failure)))
        }
    }
}

/// Whether an error says that there is no file.
fn is_no_file(kind: ErrorKind) -> bool {
    matches!(kind, ErrorKind::NotFound | ErrorKind::NotADirectory)
}

/// The options in the text of a file.
fn read_text(
    rt: HostRuntime,
    alloc: Global,
    top: &Top,
    place: &str,
    text: &str,
) -> Result<Options, u8> {
    match options_in(alloc, top, text) {
        Ok(options) => Ok(options),
        Err(Fault::Memory) => Err(told(&rt, Status::Memory)),
        Err(fault) => {
            // Words that can't be printed change nothing: the exit number says as much.
            drop(eprintln!(rt; "tup: {place}: {fault}"));
            Err(2)
        }
    }
}

/// The options in a text, with their program as it is named in the working folder.
fn options_in(alloc: Global, top: &Top, text: &str) -> Result<Options, Fault> {
    let mut options = Options::in_lines(alloc, text)?;
    if let Some(program) = options.program.take() {
        options.program = Some(program_of(alloc, top, program)?);
    }
    Ok(options)
}

/// A program that is named in the top folder, as it is named in the working folder. Only a path that
/// isn't absolute has another name there.
fn program_of(alloc: Global, top: &Top, program: Text) -> Result<Text, AllocError> {
    let name = program.as_str();
    if top.is_here() || !name.contains('/') || name.starts_with('/') {
        return Ok(program);
    }
    let path = name.strip_prefix("./").unwrap_or(name);
    Ok(Text::from_string(top.place(alloc, path)?))
}

/// Reads the options of a project that is to begin, which follow the word `init`; or else gives
/// the exit number, after the reason was printed.
pub(crate) fn check(rt: HostRuntime, alloc: Global, words: &[Word]) -> Result<Options, u8> {
    let mut options = Options::none();
    let mut place = 2;
    for word in words {
        if let Err(fault) = take(alloc, &mut options, word.0.as_str()) {
            return Err(refuse(rt, &fault, place));
        }
        place = place.saturating_add(1);
    }
    match options.ended() {
        Ok(options) => Ok(options),
        Err(fault) => Err(refuse(rt, &fault, place)),
    }
}

/// Reads a word of the call, which has to be read from a line of its own in the same way.
fn take(alloc: Global, options: &mut Options, word: &str) -> Result<(), Fault> {
    if options.awaits_program && !is_line(word) {
        return Err(Fault::NoProgram);
    }
    options.add(alloc, word)
}

/// Whether a line that holds just this program is read as this program.
fn is_line(program: &str) -> bool {
    let is_plain = program.trim().len() == program.len() && !program.contains('\n');
    is_plain && !program.is_empty() && !program.starts_with('-') && !program.starts_with('#')
}

/// Prints that the word at a place of the call can't be there.
fn refuse(rt: HostRuntime, fault: &Fault, place: u32) -> u8 {
    match fault {
        Fault::Memory => told(&rt, Status::Memory),
        _ => {
            // Words that can't be printed change nothing: the exit number says as much.
            drop(eprintln!(rt; "tup: {fault}"));
            told(&rt, Status::Usage { place })
        }
    }
}

/// Begins what is before the store of the project that is to begin: its own folder, and the options in it, a word a line. Where the
/// project has begun and there are options, these are its options now, and the exit number is given, after they were printed. Or else
/// the exit number, after the reason was printed.
pub(crate) fn begin(
    rt: HostRuntime,
    alloc: Global,
    top: &Top,
    words: &[Word],
    syncs: Syncs,
) -> Result<Option<u8>, u8> {
    let Ok(own) = Own::of(rt, alloc, top, syncs) else {
        return Err(told(&rt, Status::Memory));
    };
    match put(rt, alloc, &own, words) {
        Ok(true) => Ok(Some(tell_options(rt, alloc, words))),
        Ok(false) => Ok(None),
        Err(refused) => Err(failed(rt, refused)),
    }
}

/// Writes the options of a project, if there are any; returns whether it had begun and they were written. Where another program or
/// an early version made the store, nothing is written.
fn put(rt: HostRuntime, alloc: Global, own: &Own, words: &[Word]) -> Result<bool, Refused> {
    let has_begun = own.has_store()?;
    if words.is_empty() {
        if !has_begun {
            own.make()?;
        }
        return Ok(false);
    }
    if has_begun && makers::maker_at(rt, own.store.as_str()).is_some() {
        return Ok(false);
    }
    let text = lines(alloc, words)?;
    if own.has_options()? {
        tell_former(rt, alloc, own.options.as_str(), text.as_str())?;
    }
    own.write_options(text.as_str())?;
    Ok(has_begun)
}

/// Prints the options that a project has now, in a line; gives the exit number.
fn tell_options(rt: HostRuntime, alloc: Global, words: &[Word]) -> u8 {
    match lines(alloc, words).and_then(|text| in_a_line(alloc, text.as_str())) {
        Ok(options) => shown(println!(rt; "options:{options}")),
        Err(_) => told(&rt, Status::Memory),
    }
}

/// Prints which options are at a place, if this text is to replace them and has others.
fn tell_former(rt: HostRuntime, alloc: Global, place: &str, text: &str) -> Result<(), AllocError> {
    // What can't be read says nothing.
    if let Ok(former) = fs::read_to_string(&rt, place) {
        let options = in_a_line(alloc, former.as_str())?;
        if former.as_str() != text && !options.is_empty() {
            // Words that can't be printed change nothing.
            drop(eprintln!(rt; "tup: the options of {place} were:{options}"));
        }
    }
    Ok(())
}

/// The lines of options in one, each after a blank. Comments are left out.
fn in_a_line(alloc: Global, text: &str) -> Result<String, AllocError> {
    let mut line = String::new(alloc);
    for option in text.lines() {
        let option = option.trim();
        if !option.is_empty() && !option.starts_with('#') {
            line.push(' ')?;
            line.push_str(option)?;
        }
    }
    Ok(line)
}

/// A line for each word.
fn lines(alloc: Global, words: &[Word]) -> Result<String, AllocError> {
    let mut text = String::new(alloc);
    for word in words {
        text.push_str(word.0.as_str())?;
        text.push('\n')?;
    }
    Ok(text)
}

/// Prints why something of the program's own folder wasn't done; gives the exit number.
fn failed(rt: HostRuntime, refused: Refused) -> u8 {
    match refused {
        Refused::Memory => told(&rt, Status::Memory),
        Refused::Failed(failure) => {
            // Words that can't be printed change nothing: the exit number says as much.
            drop(eprintln!(rt; "tup: {failure}"));
            told(&rt, Status::SiteFault)
        }
    }
}
