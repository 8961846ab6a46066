//! The words of a rule, and what each looks like.
ghost use Rattle.std.specs.Prelude.{◌≡◌, ℕ, ◌+◌, ◌<◌, ◌^◌, ◌++◌, [], ◌∷◌, length, OnOk, IfOk, IfErr};
ghost use Rattle.std.specs.List.{filter};
ghost use Rattle.tup_lex.specs.Word.{span_of, is_some_word, words, begins_with, is_enclosed, last_name, is_bar, is_foreach, is_bin, is_group, is_gift, is_sound, inner_span};
ghost use Rattle.tup_lex.specs.declared.fault.LexFault.TheVariants.{Memory};

use crate::blank::is_blank;
use crate::fault::LexFault;
use crate::span::Span;
use bstr::ByteSlice;
use std::alloc::Global;
use std::marker::Model;

/// A word with the place in the text where it begins. It isn't empty. Contracts see the place and
/// the bytes.
#[derive(Drop)]
pub(crate) struct Word<'a> {
    from: u32,
    text: &'a [u8],
}

impl<'a> Model for Word<'a> {
    ghost use Rattle.std.specs.Prelude.{List, ℕ, ◌+◌, ◌<◌, ◌^◌, length};

    ghost Value = { ℕ × List ℕ };

    ghost view = { λ w. (w.from, w.text.now) };

    ghost invariant = { λ w. (w.from + length w.text.now < 2 ^ 32) × (0 < length w.text.now) };
}

impl<'a> Word<'a> {
    pub(crate) fn span(&self) -> Span
        ensures { result ≡ span_of self.now }
    {
        Span {
            from: self.from,
            to: self.from + self.text.len() as u32,
        }
    }

    /// Where the name of a bin stands.
    pub(crate) fn inner_span(&self) -> Span
        ensures { result ≡ inner_span self.now }
    {
        Span {
            from: self.from + 1,
            to: self.from + self.text.len() as u32 - 1,
        }
    }

    pub(crate) fn is_bar(&self) -> bool
        ensures { result ≡ is_bar self.now }
    {
        self.text == b"|".as_slice()
    }

    pub(crate) fn is_foreach(&self) -> bool
        ensures { result ≡ is_foreach self.now }
    {
        self.text == b"foreach".as_slice()
    }

    pub(crate) fn is_bin(&self) -> bool
        ensures { result ≡ is_bin self.now }
    {
        is_enclosed(b'{', b'}', self.text)
    }

    pub(crate) fn is_group(&self) -> bool
        ensures { result ≡ is_group self.now }
    {
        is_enclosed(b'<', b'>', last_name(self.text))
    }

    /// Whether it is a bin or a group, to which outputs are given.
    pub(crate) fn is_gift(&self) -> bool
        ensures { result ≡ is_gift self.now }
    {
        self.is_bin() || self.is_group()
    }

    /// Whether the word may stand in a rule.
    pub(crate) fn is_sound(&self) -> bool
        ensures { result ≡ is_sound self.now }
    {
        !begins_with(b'^', self.text)
            && (!begins_with(b'{', self.text) || self.is_bin())
            && (!begins_with(b'<', last_name(self.text)) || self.is_group())
    }
}

fn begins_with(byte: u8, text: &[u8]) -> bool
    ensures { result ≡ begins_with byte text.now }
{
    match text {
        [] => false,
        [first, ..] => *first == byte,
    }
}

fn is_enclosed(opening: u8, closing: u8, text: &[u8]) -> bool
    ensures { result ≡ is_enclosed opening closing text.now }
{
    begins_with(opening, text) && text[text.len() - 1] == closing && text.len() > 2
}

fn last_name(text: &[u8]) -> &[u8]
    ensures { result.now ≡ last_name text.now }
{
    match text.rfind_byte(b'/') {
        Some(slash) => &text[slash + 1..],
        None => text,
    }
}

/// The words of a part of a text that begins at this place of it.
pub(crate) fn words<'a>(alloc: Global, at: usize, part: &'a [u8]) -> Result<Vec<Word<'a>>, LexFault>
    requires { at + length part.now < 2 ^ 32 }
    ensures ok { IfOk result (λ all. all.items ≡ words at part.now) }
    ensures err { IfErr result (λ fault. fault ≡ Memory) }
{
    let mut all = Vec::new(alloc);
    let mut start = 0;
    for end in 0..part.len() {
        if is_blank(part[end]) {
            add(&mut all, at + start, &part[start..end])?;
            start = end + 1;
        }
    }
    add(&mut all, at + start, &part[start..])?;
    Ok(all)
}

/// Adds a word, if it isn't empty.
fn add<'a>(all: &mut Vec<Word<'a>>, from: usize, text: &'a [u8]) -> Result<(), LexFault>
    requires { from + length text.now < 2 ^ 32 }
    ensures ok { OnOk result (all.new.items
        ≡ all.old.items ++ filter is_some_word ((from, text.now) ∷ [])) }
    ensures err { IfErr result (λ fault. fault ≡ Memory) }
{
    if !text.is_empty() {
        all.push(Word {
            from: from as u32,
            text,
        })?;
    }
    Ok(())
}
