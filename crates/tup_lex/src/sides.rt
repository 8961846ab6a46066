//! The words of the two sides of a rule: where they part, and whether they may stand there.
ghost use Rattle.std.specs.Prelude.{◌≡◌, ◌<◌, length, map, Some, count_by, option_map, IfOk, IfErr, IfSome};
ghost use Rattle.std.specs.List.{before_first, after_first, find, position, list_all, list_any};
ghost use Rattle.tup_lex.specs.Word.{span_of, inner_span, is_bar, is_bin, is_group, is_gift, is_sound};
ghost use Rattle.tup_lex.specs.Parts.{says_foreach, inputs_of, made_of, gifts_of, inputs_stand, outputs_stand, may_be_given};
ghost use Rattle.tup_lex.specs.declared.fault.LexFault.TheVariants.{Memory};

use crate::fault::LexFault;
use crate::span::{Span, Spans};
use crate::word::Word;
use std::alloc::Global;

pub(crate) fn says_foreach(words: &[Word]) -> bool
    ensures { result ≡ says_foreach words.now }
{
    match words {
        [] => false,
        [first, ..] => first.is_foreach(),
    }
}

/// The words of the inputs part behind a `foreach`.
pub(crate) fn inputs_of<'w, 'a>(words: &'w [Word<'a>]) -> &'w [Word<'a>]
    ensures { result.now ≡ inputs_of words.now }
{
    if says_foreach(words) {
        &words[1..]
    } else {
        words
    }
}

/// The words before the first bar, and those behind it.
pub(crate) fn around_bar<'w, 'a>(words: &'w [Word<'a>]) -> (&'w [Word<'a>], &'w [Word<'a>])
    ensures before { result.0.now ≡ before_first is_bar words.now }
    ensures after { result.1.now ≡ after_first is_bar words.now }
{
    match bar_place(words) {
        Some(bar) => (&words[..bar], &words[bar + 1..]),
        None => (words, &words[words.len()..]),
    }
}

fn bar_place(words: &[Word]) -> Option<usize>
    ensures place { result ≡ position is_bar words.now }
    ensures within { IfSome result (λ place. place < length words.now) }
{
    words.iter().position(|word| word.is_bar())
}

/// The words before the first bin or group, and the others.
pub(crate) fn before_gifts<'w, 'a>(words: &'w [Word<'a>]) -> (&'w [Word<'a>], &'w [Word<'a>])
    ensures made { result.0.now ≡ made_of words.now }
    ensures gifts { result.1.now ≡ gifts_of words.now }
{
    match gift_place(words) {
        Some(gift) => (&words[..gift], &words[gift..]),
        None => (words, &words[words.len()..]),
    }
}

fn gift_place(words: &[Word]) -> Option<usize>
    ensures place { result ≡ position is_gift words.now }
    ensures within { IfSome result (λ place. place < length words.now) }
{
    words.iter().position(|word| word.is_gift())
}

/// Whether the words of the inputs part may stand there.
pub(crate) fn inputs_stand(foreach: bool, words: &[Word]) -> bool
    ensures { result ≡ inputs_stand foreach words.now }
{
    let (inputs, order) = around_bar(words);
    all_sound(words) && !has_bar(order) && !(foreach && has_group(inputs))
}

/// Whether the words of the outputs part may.
pub(crate) fn outputs_stand(words: &[Word]) -> bool
    ensures { result ≡ outputs_stand words.now }
{
    let (made, gifts) = before_gifts(words);
    let (_, extra) = around_bar(made);
    all_sound(words) && !has_bar(extra) && may_be_given(gifts)
}

/// Whether these are bins and groups alone, one of each at most.
fn may_be_given(gifts: &[Word]) -> bool
    ensures { result ≡ may_be_given gifts.now }
{
    all_gifts(gifts) && groups(gifts) < 2 && bins(gifts) < 2
}

fn all_sound(words: &[Word]) -> bool
    ensures { result ≡ list_all is_sound words.now }
{
    words.iter().all(|word| word.is_sound())
}

fn all_gifts(words: &[Word]) -> bool
    ensures { result ≡ list_all is_gift words.now }
{
    words.iter().all(|word| word.is_gift())
}

fn has_bar(words: &[Word]) -> bool
    ensures { result ≡ list_any is_bar words.now }
{
    words.iter().any(|word| word.is_bar())
}

fn has_group(words: &[Word]) -> bool
    ensures { result ≡ list_any is_group words.now }
{
    words.iter().any(|word| word.is_group())
}

fn groups(words: &[Word]) -> usize
    ensures { result ≡ count_by is_group words.now }
{
    words.iter().filter(|word| word.is_group()).count()
}

fn bins(words: &[Word]) -> usize
    ensures { result ≡ count_by is_bin words.now }
{
    words.iter().filter(|word| word.is_bin()).count()
}

/// Where the group among bins and groups stands.
pub(crate) fn group_of(gifts: &[Word]) -> Option<Span>
    ensures { result ≡ option_map span_of (find is_group gifts.now) }
{
    gifts
        .iter()
        .find(|word| word.is_group())
        .map(|word| word.span())
}

/// Where the name of the bin among them stands.
pub(crate) fn bin_of(gifts: &[Word]) -> Option<Span>
    ensures { result ≡ option_map inner_span (find is_bin gifts.now) }
{
    gifts
        .iter()
        .find(|word| word.is_bin())
        .map(|word| word.inner_span())
}

pub(crate) fn spans(alloc: Global, words: &[Word]) -> Result<Spans, LexFault>
    ensures ok { IfOk result (λ all. all ≡ map span_of words.now) }
    ensures err { IfErr result (λ fault. fault ≡ Memory) }
{
    let mut all = Spans::new(alloc);
    for word in words {
        all.push(word.span())?;
    }
    Ok(all)
}
