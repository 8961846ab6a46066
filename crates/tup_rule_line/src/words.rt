//! Rule lines cut into their parts, as texts.
ghost use Rattle.std.specs.Prelude.{◌≡◌, ◌<◌, ◌^◌, ◌++◌, All, IfOk, IfSome, OnOk, length, map, option_map};
ghost use Rattle.tup_rule_line.specs.Cut.{AreCut, IsCut};
ghost use Rattle.tup_rule_line.specs.Glob.{bytes_at};
ghost use Rattle.tup_rule_line.specs.Words as specs;
ghost use Rattle.tup_query.specs.Went.{Gives, IsRefusal};
ghost use Rattle.tup_query.specs.declared.fault.ReadEnd.TheVariants.{Memory};

use crate::span_text::text_at;
use std::alloc::{AllocError, Global};
use tup_lex::{LexFault, ParseKind, Parts, Span, rule_parts};
use tup_macro::{Macro, Macros};
use tup_path::{Text, Texts};
use tup_query::{ReadEnd, Spot};

/// The parts of a rule line.
#[derive(Drop)]
pub(crate) struct Words {
    pub(crate) foreach: bool,
    pub(crate) inputs: Texts,
    pub(crate) order: Texts,
    pub(crate) command: Text,
    pub(crate) outputs: Texts,
    pub(crate) extra: Texts,
    /// The group to which the outputs are given, as it is written.
    pub(crate) group: Option<Text>,
    /// The name of the bin to which they are given.
    pub(crate) bin: Option<Text>,
}

/// The parts of a rule, with what its macro says.
pub(crate) fn words_of(
    alloc: Global,
    at: &Spot,
    macros: &Macros,
    text: &Text,
) -> Result<Words, ReadEnd>
    requires { length text.now < 2 ^ 32 }
    ensures { Gives (specs.words_of at.now macros.now text.now) result }
{
    let bare = cut(alloc, at, text)?;
    with_macro(alloc, at, macros, bare)
}

/// The parts of a rule as texts.
pub(crate) fn cut(alloc: Global, at: &Spot, text: &Text) -> Result<Words, ReadEnd>
    requires { length text.now < 2 ^ 32 }
    ensures { Gives (specs.cut at.now text.now) result }
{
    let source = text.as_str();
    match rule_parts(alloc, text) {
        Ok(parts) => Ok(words_at(alloc, source, &parts)?),
        Err(fault) => Err(lex_end(at, &fault)),
    }
}

/// The end with a refusal of a file's lines, or of a line's parts, as a fault at a line.
pub fn lex_end(at: &Spot, fault: &LexFault) -> ReadEnd
    ensures refusal { IsRefusal at.now (specs.lex_kind fault.now) result }
    ensures memory { fault.now ≡ LexFault.Memory → result ≡ Memory }
{
    let kind = match fault {
        LexFault::NoArrow => ParseKind::NoArrow,
        LexFault::BadBrace => ParseKind::BadBrace,
        LexFault::NotUtf8 { .. } => ParseKind::NotUtf8,
        LexFault::LineTooLong { .. } => ParseKind::LineTooLong,
        LexFault::Memory => return ReadEnd::Memory,
    };
    at.refuse(kind)
}

/// The parts of a text by their places in it.
fn words_at(alloc: Global, text: &str, parts: &Parts) -> Result<Words, AllocError>
    requires { AreCut text.now parts.now }
    ensures { IfOk result (λ words. words ≡ specs.words_at text.now parts.now) }
{
    Ok(Words {
        foreach: parts.foreach,
        inputs: texts_at(alloc, text, parts.inputs.as_slice())?,
        order: texts_at(alloc, text, parts.order.as_slice())?,
        command: text_at(alloc, text, &parts.command)?,
        outputs: texts_at(alloc, text, parts.outputs.as_slice())?,
        extra: texts_at(alloc, text, parts.extra.as_slice())?,
        group: option_at(alloc, text, &parts.group)?,
        bin: option_at(alloc, text, &parts.bin)?,
    })
}

/// The texts at places in a text.
fn texts_at(alloc: Global, text: &str, spans: &[Span]) -> Result<Texts, AllocError>
    requires { All (IsCut text.now) spans.now }
    ensures { IfOk result (λ texts. texts ≡ map (bytes_at text.now) spans.now) }
{
    let mut texts = Texts::new(alloc);
    for span in spans {
        texts.push(text_at(alloc, text, span)?)?;
    }
    Ok(texts)
}

/// The text at a place in a text, if there is a place.
fn option_at(alloc: Global, text: &str, span: &Option<Span>) -> Result<Option<Text>, AllocError>
    requires { IfSome span.now (IsCut text.now) }
    ensures { IfOk result (λ found. found ≡ option_map (bytes_at text.now) span.now) }
{
    match span {
        Some(span) => Ok(Some(text_at(alloc, text, span)?)),
        None => Ok(None),
    }
}

/// A rule whose command may be a macro's name.
fn with_macro(alloc: Global, at: &Spot, macros: &Macros, words: Words) -> Result<Words, ReadEnd>
    ensures { Gives (specs.with_macro at.now macros.now words) result }
{
    let name = macro_name(alloc, words.command.as_str())?;
    match name {
        Some(name) => with_named(at, macros, &name, words),
        None => Ok(words),
    }
}

/// The name of the macro that a command is.
fn macro_name(alloc: Global, command: &str) -> Result<Option<Text>, AllocError>
    ensures { IfOk result (λ name. name ≡ specs.macro_name command.now) }
{
    match command.strip_prefix("!") {
        Some(name) => Ok(Some(Text::from_str(alloc, name)?)),
        None => Ok(None),
    }
}

/// A rule with the macro of a name.
fn with_named(at: &Spot, macros: &Macros, name: &Text, words: Words) -> Result<Words, ReadEnd>
    ensures { Gives (specs.with_named at.now macros.now name.now words) result }
{
    match macros.get(name) {
        Ok(body) => Ok(filled(words, body)?),
        Err(_) => Err(at.refuse(ParseKind::NoSuchMacro)),
    }
}

/// A rule with what a macro says.
fn filled(words: Words, body: &Macro) -> Result<Words, AllocError>
    ensures { IfOk result (λ all. all ≡ specs.filled words body.now) }
{
    let mut words = words;
    fill_taken(&mut words, body)?;
    fill_given(&mut words, body)?;
    Ok(words)
}

/// Puts a macro's command in place of its name, and its order-only inputs behind those of the rule.
fn fill_taken(words: &mut Words, body: &Macro) -> Result<(), AllocError>
    ensures { OnOk result (words.new ≡ specs.with_taken words.old body.now) }
{
    add_texts(&mut words.order, body.order.as_slice())?;
    words.command = body.command.clone()?;
    Ok(())
}

/// Takes a macro's outputs, or its extra outputs, where the rule names none.
fn fill_given(words: &mut Words, body: &Macro) -> Result<(), AllocError>
    ensures { OnOk result (words.new ≡ specs.with_given words.old body.now) }
{
    fill(&mut words.outputs, &body.outputs)?;
    fill(&mut words.extra, &body.extra)?;
    Ok(())
}

/// Adds texts at the end.
fn add_texts(texts: &mut Texts, more: &[Text]) -> Result<(), AllocError>
    ensures { OnOk result (texts.new ≡ texts.old ++ more.now) }
{
    for text in more {
        texts.push(text.clone()?)?;
    }
    Ok(())
}

/// Puts others in place of no words.
fn fill(words: &mut Texts, others: &Texts) -> Result<(), AllocError>
    ensures { OnOk result (words.new ≡ specs.or_else words.old others.now) }
{
    if words.len() == 0 {
        *words = others.clone()?;
    }
    Ok(())
}
