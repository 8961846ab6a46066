//! The parts of a rule line.
ghost use Rattle.std.specs.Prelude.{◌≡◌, ◌⊎◌, ◌+◌, ◌<◌, ◌≤◌, ◌^◌, length, IfOk, IfSome};
ghost use Rattle.tup_lex.specs.Parts.{arrows, trimmed_span, assembled, parts_of, rule_parts};
ghost use Rattle.tup_lex.specs.Spans.{LieIn};
ghost use Rattle.tup_lex.specs.declared.fault.LexFault.TheVariants.{Memory};

use crate::blank::ends;
use crate::fault::LexFault;
use crate::sides::{
    around_bar, before_gifts, bin_of, group_of, inputs_of, inputs_stand, outputs_stand,
    says_foreach, spans,
};
use crate::span::{Span, Spans};
use crate::word::{Word, words};
use bstr::ByteSlice;
use std::alloc::Global;
use tup_path::Text;

/// Where the parts of a rule stand in its text.
#[derive(Drop)]
pub struct Parts {
    /// Whether the inputs begin with the word `foreach`, which isn't one of them.
    pub foreach: bool,
    /// The words before the bar of the inputs part.
    pub inputs: Spans,
    /// The words behind it.
    pub order: Spans,
    /// The command, without the blanks at its ends.
    pub command: Span,
    /// The words before the bar of the outputs part, and before a group or a bin.
    pub outputs: Spans,
    /// The words behind the bar.
    pub extra: Spans,
    /// The group to which the outputs are given, as `<name>` or `DIR/<name>`.
    pub group: Option<Span>,
    /// The name of the bin to which they are given, without its braces.
    pub bin: Option<Span>,
}

/// Cuts a rule behind its colon into its parts.
///
/// A text without exactly two arrows is refused as `NoArrow`, and else one with a word that can't
/// stand where it does as `BadBrace`.
pub fn rule_parts(alloc: Global, text: &Text) -> Result<Parts, LexFault>
    requires { length text.now < 2 ^ 32 }
    ensures parts { (result ≡ Err Memory) ⊎ (result ≡ rule_parts text.now) }
    ensures lie { IfOk result (LieIn (length text.now)) }
{
    parts_in(alloc, text.as_bytes())
}

fn parts_in(alloc: Global, text: &[u8]) -> Result<Parts, LexFault>
    requires { length text.now < 2 ^ 32 }
    ensures { (result ≡ Err Memory) ⊎ (result ≡ rule_parts text.now) }
{
    let Some((first, second)) = arrows(text) else {
        return Err(LexFault::NoArrow);
    };
    let left = words(alloc, 0, &text[..first])?;
    let command = trimmed_span(first + 2, &text[first + 2..second]);
    let right = words(alloc, second + 2, &text[second + 2..])?;
    parts_of(alloc, &left, command, &right)
}

/// The places of the two arrows of a rule.
fn arrows(text: &[u8]) -> Option<(usize, usize)>
    ensures value { result ≡ arrows text.now }
    ensures within { IfSome result (λ places.
        (places.0 + 2 ≤ places.1) × (places.1 + 2 ≤ length text.now)) }
{
    let mut found = text.find_iter(b"|>");
    let first = found.next()?;
    let second = found.next()?;
    match found.next() {
        Some(_) => None,
        None => Some((first, second)),
    }
}

/// A part of a text that begins at a place, without the blanks at its ends.
fn trimmed_span(at: usize, part: &[u8]) -> Span
    requires { at + length part.now < 2 ^ 32 }
    ensures { result ≡ trimmed_span at part.now }
{
    let (from, to) = match ends(part) {
        Some((first, last)) => (first, last + 1),
        None => (part.len(), part.len()),
    };
    Span {
        from: (at + from) as u32,
        to: (at + to) as u32,
    }
}

/// The parts that the words of a rule's two ends and the place of its command make.
fn parts_of(alloc: Global, left: &[Word], command: Span, right: &[Word]) -> Result<Parts, LexFault>
    ensures { (result ≡ Err Memory) ⊎ (result ≡ parts_of left.now command right.now) }
{
    let foreach = says_foreach(left);
    let inputs = inputs_of(left);
    if !inputs_stand(foreach, inputs) || !outputs_stand(right) {
        return Err(LexFault::BadBrace);
    }
    assembled(alloc, foreach, inputs, command, right)
}

fn assembled(
    alloc: Global,
    foreach: bool,
    inputs: &[Word],
    command: Span,
    right: &[Word],
) -> Result<Parts, LexFault>
    ensures { (result ≡ Err Memory)
        ⊎ (result ≡ Ok (assembled foreach inputs.now command right.now)) }
{
    let (inputs, order) = around_bar(inputs);
    let (made, gifts) = before_gifts(right);
    let (outputs, extra) = around_bar(made);
    Ok(Parts {
        foreach,
        inputs: spans(alloc, inputs)?,
        order: spans(alloc, order)?,
        command,
        outputs: spans(alloc, outputs)?,
        extra: spans(alloc, extra)?,
        group: group_of(gifts),
        bin: bin_of(gifts),
    })
}
