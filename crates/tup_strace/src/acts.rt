//! What a call does to places.
ghost use Rattle.std.specs.Prelude.{◌≡◌, ◌++◌, [], OnOk, IfOk, unwrap_or};
ghost use Rattle.tup_strace.specs.Acts as specs;
ghost use Rattle.tup_strace.specs.Acts.{acts_of};

use crate::act::{Act, Answer};
use crate::names::{
    has, is_binding, is_creating, is_cutting, is_linking, is_looking, is_making, is_moving,
    is_opening, is_pointing, is_reading_link, is_removing, is_running,
};
use crate::said::Said;
use std::alloc::{AllocError, Global};
use tup_path::{Bytes, Items};

/// What is done, in order.
#[derive(Drop)]
pub(crate) struct Acts {
    pub(crate) list: Items<Act>,
}

impl Acts {
    /// Adds what a call of this name does that says so. One whose end isn't known does nothing.
    pub(crate) fn add(&mut self, alloc: Global, name: &[u8], said: &Said) -> Result<(), AllocError>
        ensures { OnOk result (self.new.list ≡ self.old.list ++ acts_of name.now said.now) }
    {
        if is_elsewhere(name, said) {
            Ok(())
        } else if has_failed(&said.outcome) {
            self.failed(alloc, name, said)
        } else if is_done(&said.outcome) {
            self.done(alloc, name, said)
        } else {
            Ok(())
        }
    }

    /// Adds what a call asks for that failed.
    fn failed(&mut self, alloc: Global, name: &[u8], said: &Said) -> Result<(), AllocError>
        ensures { OnOk result (self.new.list ≡ self.old.list ++ specs.failed name.now said.now) }
    {
        let (one, two) = (first(said), second(said));
        if is_running(name) {
            self.run(alloc, one)
        } else if is_pointing(name) {
            self.ask(alloc, two, false, Answer::Unclear)
        } else if is_moving(name) || is_linking(name) {
            self.ask(alloc, one, false, Answer::Unclear)?;
            self.ask(alloc, two, false, Answer::Unclear)
        } else {
            let follows = follows(name, said) && !is_removing(name);
            self.ask(alloc, one, follows, answer_of(name, said))
        }
    }

    /// Adds what a call does that did what it says.
    fn done(&mut self, alloc: Global, name: &[u8], said: &Said) -> Result<(), AllocError>
        ensures { OnOk result (self.new.list ≡ self.old.list ++ specs.done name.now said.now) }
    {
        let place = first(said);
        if is_opening(name) {
            self.open(alloc, said, place, follows(name, said))?;
            self.open(alloc, said, opened(said), false)
        } else if is_creating(name) {
            self.write(alloc, place, true)?;
            self.write(alloc, opened(said), false)
        } else if is_running(name) {
            self.run(alloc, place)
        } else if is_cutting(name) {
            self.ask(alloc, place, true, Answer::Unclear)?;
            self.write(alloc, place, true)
        } else {
            self.renamed(alloc, name, said)
        }
    }

    /// Adds what a call does that made or removed names, or asked for one.
    fn renamed(&mut self, alloc: Global, name: &[u8], said: &Said) -> Result<(), AllocError>
        ensures { OnOk result (self.new.list ≡ self.old.list ++ specs.renamed name.now said.now) }
    {
        let (one, two) = (first(said), second(said));
        if is_moving(name) {
            self.moved(alloc, said)
        } else if is_linking(name) {
            let follows = has(b"AT_SYMLINK_FOLLOW", said.words.as_slice());
            self.ask(alloc, one, follows, Answer::Unclear)?;
            self.make(alloc, two)
        } else if is_pointing(name) {
            self.make(alloc, two)
        } else if is_removing(name) {
            self.remove(alloc, one)
        } else if is_making(name) {
            self.make(alloc, one)
        } else {
            self.ask(alloc, one, follows(name, said), Answer::Found)
        }
    }

    /// Adds what a call does that moved a name or exchanged two.
    fn moved(&mut self, alloc: Global, said: &Said) -> Result<(), AllocError>
        ensures { OnOk result (self.new.list ≡ self.old.list ++ specs.moved said.now) }
    {
        if is_telling(said.words.as_slice()) {
            self.ask(alloc, second(said), false, Answer::Unclear)?;
        }
        self.rename(alloc, first(said), second(said))
    }

    /// Adds what opening a file at a place does that says so.
    fn open(
        &mut self,
        alloc: Global,
        said: &Said,
        place: &[u8],
        follows: bool,
    ) -> Result<(), AllocError>
        ensures { OnOk result (self.new.list
            ≡ self.old.list ++ specs.opening said.now.words place.now follows) }
    {
        self.open_by(alloc, said.words.as_slice(), place, follows)
    }

    /// Adds what opening a place does, by its flags.
    fn open_by(
        &mut self,
        alloc: Global,
        words: &[Bytes],
        place: &[u8],
        follows: bool,
    ) -> Result<(), AllocError>
        ensures { OnOk result (self.new.list
            ≡ self.old.list ++ specs.opening words.now place.now follows) }
    {
        if has(b"O_TMPFILE", words) {
            Ok(())
        } else if has(b"O_DIRECTORY", words) {
            self.ask(alloc, place, follows, Answer::Found)
        } else {
            self.open_file(alloc, words, place, follows)
        }
    }

    /// Adds what opening a file that has a name does, by its flags.
    fn open_file(
        &mut self,
        alloc: Global,
        words: &[Bytes],
        place: &[u8],
        follows: bool,
    ) -> Result<(), AllocError>
        ensures { OnOk result (self.new.list
            ≡ self.old.list ++ specs.opening_file words.now place.now follows) }
    {
        if is_made(words) {
            self.make(alloc, place)
        } else if is_new(words) {
            self.write(alloc, place, follows)
        } else if has(b"O_TRUNC", words) {
            self.ask(alloc, place, follows, Answer::Unclear)?;
            self.write(alloc, place, follows)
        } else if is_writing(words) {
            self.change(alloc, place, follows)
        } else {
            self.ask(alloc, place, follows, Answer::Found)
        }
    }

    /// Adds that a place is asked for and made, if there is one: had something been there, it couldn't have been made.
    fn make(&mut self, alloc: Global, place: &[u8]) -> Result<(), AllocError>
        ensures { OnOk result (self.new.list ≡ self.old.list ++ specs.make place.now) }
    {
        self.ask(alloc, place, false, Answer::Unclear)?;
        self.write(alloc, place, false)
    }

    /// Adds that a place is asked for, if there is one.
    fn ask(
        &mut self,
        alloc: Global,
        place: &[u8],
        follows: bool,
        answer: Answer,
    ) -> Result<(), AllocError>
        ensures { OnOk result
            (self.new.list ≡ self.old.list ++ specs.ask place.now follows answer) }
    {
        if place.is_empty() {
            return Ok(());
        }
        let place = copied(alloc, place)?;
        self.list.push(Act::Ask {
            place,
            follows,
            answer,
        })?;
        Ok(())
    }

    /// Adds that what is at a place is run, if there is one.
    fn run(&mut self, alloc: Global, place: &[u8]) -> Result<(), AllocError>
        ensures { OnOk result (self.new.list ≡ self.old.list ++ specs.run place.now) }
    {
        if place.is_empty() {
            return Ok(());
        }
        let place = copied(alloc, place)?;
        self.list.push(Act::Run { place })?;
        Ok(())
    }

    /// Adds that a place is written, if there is one.
    fn write(&mut self, alloc: Global, place: &[u8], follows: bool) -> Result<(), AllocError>
        ensures { OnOk result (self.new.list ≡ self.old.list ++ specs.write place.now follows) }
    {
        if place.is_empty() {
            return Ok(());
        }
        let place = copied(alloc, place)?;
        self.list.push(Act::Write { place, follows })?;
        Ok(())
    }

    /// Adds that a place is asked for and may be changed, if there is one.
    fn change(&mut self, alloc: Global, place: &[u8], follows: bool) -> Result<(), AllocError>
        ensures { OnOk result (self.new.list ≡ self.old.list ++ specs.change place.now follows) }
    {
        if place.is_empty() {
            return Ok(());
        }
        let place = copied(alloc, place)?;
        self.list.push(Act::Change { place, follows })?;
        Ok(())
    }

    /// Adds that a place is removed, if there is one.
    fn remove(&mut self, alloc: Global, place: &[u8]) -> Result<(), AllocError>
        ensures { OnOk result (self.new.list ≡ self.old.list ++ specs.remove place.now) }
    {
        if place.is_empty() {
            return Ok(());
        }
        let place = copied(alloc, place)?;
        self.list.push(Act::Remove { place })?;
        Ok(())
    }

    /// Adds that what is at a place is moved, if there is one.
    fn rename(&mut self, alloc: Global, from: &[u8], to: &[u8]) -> Result<(), AllocError>
        ensures { OnOk result (self.new.list ≡ self.old.list ++ specs.move from.now to.now) }
    {
        if from.is_empty() {
            return Ok(());
        }
        let from = copied(alloc, from)?;
        let to = copied(alloc, to)?;
        self.list.push(Act::Move { from, to })?;
        Ok(())
    }
}

/// The first place that a call names, or no byte.
pub(crate) fn first(said: &Said) -> &[u8]
    ensures { result.now ≡ specs.first said.now.places }
{
    match said.places.as_slice() {
        [first, ..] => first.as_slice(),
        [] => &[],
    }
}

/// The second place that a call names, or no byte.
fn second(said: &Said) -> &[u8]
    ensures { result.now ≡ specs.second said.now.places }
{
    match said.places.as_slice() {
        [_, second, ..] => second.as_slice(),
        _ => &[],
    }
}

/// The path of the descriptor that a call gave, or no byte.
fn opened(said: &Said) -> &[u8]
    ensures { result.now ≡ unwrap_or said.now.opened [] }
{
    match &said.opened {
        Some(path) => path.as_slice(),
        None => &[],
    }
}

/// Whether a link at the place is followed.
fn follows(name: &[u8], said: &Said) -> bool
    ensures { result ≡ specs.follows name.now said.now.words }
{
    let words = said.words.as_slice();
    !(is_looking(name) || has(b"AT_SYMLINK_NOFOLLOW", words) || has(b"O_NOFOLLOW", words))
}

/// What a call was told that failed.
fn answer_of(name: &[u8], said: &Said) -> Answer
    ensures { result ≡ specs.answer_of name.now said.now.fault }
{
    match &said.fault {
        Some(fault) => told(name, fault.as_slice()),
        None => Answer::Unclear,
    }
}

/// What an error says of the place to a call that failed with it.
fn told(name: &[u8], fault: &[u8]) -> Answer
    ensures { result ≡ specs.told name.now fault.now }
{
    if fault == b"ENOENT".as_slice() {
        Answer::Missed
    } else if is_reading_link(name) && fault == b"EINVAL".as_slice() {
        Answer::Found
    } else {
        Answer::Unclear
    }
}

/// Whether a name was moved by what was at its new place: nothing, or something that took its old one.
fn is_telling(words: &[Bytes]) -> bool
    ensures { result ≡ specs.is_telling words.now }
{
    has(b"RENAME_NOREPLACE", words) || has(b"RENAME_EXCHANGE", words)
}

/// Whether a file was made where nothing was.
fn is_made(words: &[Bytes]) -> bool
    ensures { result ≡ specs.is_made words.now }
{
    has(b"O_CREAT", words) && has(b"O_EXCL", words)
}

/// Whether a file was made, or was emptied before.
fn is_new(words: &[Bytes]) -> bool
    ensures { result ≡ specs.is_new words.now }
{
    has(b"O_CREAT", words) && has(b"O_TRUNC", words)
}

/// Whether what is in a file may be changed.
fn is_writing(words: &[Bytes]) -> bool
    ensures { result ≡ specs.is_writing words.now }
{
    has(b"O_WRONLY", words)
        || has(b"O_RDWR", words)
        || has(b"O_APPEND", words)
        || has(b"O_CREAT", words)
        || is_structured(words)
}

/// Whether the flags of `openat2` say so: the first of them is one word with what stands before it.
fn is_structured(words: &[Bytes]) -> bool
    ensures { result ≡ specs.is_structured words.now }
{
    has(b"{flags=O_WRONLY", words) || has(b"{flags=O_RDWR", words)
}

/// Whether a call gives a socket an address that is no name of a file.
fn is_elsewhere(name: &[u8], said: &Said) -> bool
    ensures { result ≡ specs.is_elsewhere name.now said.now }
{
    is_binding(name) && !has(b"sun_path=", said.words.as_slice())
}

/// Whether a call did what it says.
pub(crate) fn is_done(outcome: &Option<Bytes>) -> bool
    ensures { result ≡ specs.is_done outcome.now }
{
    match outcome {
        Some(outcome) => !is_error(outcome.as_slice()),
        None => false,
    }
}

/// Whether a call failed.
fn has_failed(outcome: &Option<Bytes>) -> bool
    ensures { result ≡ specs.has_failed outcome.now }
{
    match outcome {
        Some(outcome) => is_error(outcome.as_slice()),
        None => false,
    }
}

/// Whether a call gave an error, or nothing.
fn is_error(outcome: &[u8]) -> bool
    ensures { result ≡ specs.is_error outcome.now }
{
    match outcome {
        [first, ..] => *first == b'-' || *first == b'?',
        [] => true,
    }
}

/// A copy of bytes.
pub(crate) fn copied(alloc: Global, bytes: &[u8]) -> Result<Bytes, AllocError>
    ensures { IfOk result (λ copy. copy ≡ bytes.now) }
{
    Ok(Bytes::new(Vec::from_slice(alloc, bytes)?))
}
