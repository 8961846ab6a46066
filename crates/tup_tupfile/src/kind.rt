//! The kinds of line.
ghost use Rattle.std.specs.Prelude.{◌≡◌, ◌<◌, length, position, IfSome};
ghost use Rattle.tup_lex.specs.Blank.{is_blank as blank_test};
ghost use Rattle.tup_tupfile.specs.Kind as specs;

use tup_lex::trimmed;

/// What a line is, with the texts that belong to it.
#[derive(Clone, Copy)]
pub(crate) enum LineKind<'l> {
    /// `ifeq`, or `ifneq`, with the text behind it.
    Compares(bool, &'l str),
    /// `ifdef`, or `ifndef`, with the text behind it.
    Looks(bool, &'l str),
    Else,
    Endif,
    Complains(&'l str),
    IncludesRules,
    Includes(&'l str),
    /// A rule, behind its colon.
    Rules(&'l str),
    /// A macro line, behind its `!`: what stands before the first `=`, and behind it.
    Defines(&'l str, &'l str),
    /// An assignment: what stands before the first `=`, and behind it.
    Sets(&'l str, &'l str),
    Unknown,
}

/// The kind of a trimmed line.
pub(crate) fn kind_of(line: &str) -> LineKind<'_>
    ensures { specs.in_bytes result ≡ specs.kind_of line.now }
{
    let (word, rest) = first_word(line);
    match word {
        "ifeq" => LineKind::Compares(true, rest),
        "ifneq" => LineKind::Compares(false, rest),
        "ifdef" => LineKind::Looks(true, rest),
        "ifndef" => LineKind::Looks(false, rest),
        "error" => LineKind::Complains(rest),
        "include" => LineKind::Includes(rest),
        _ => whole_kind(line),
    }
}

/// The kind of a line that no first word tells.
fn whole_kind(line: &str) -> LineKind<'_>
    ensures { specs.in_bytes result ≡ specs.whole_kind line.now }
{
    match line {
        "else" => LineKind::Else,
        "endif" => LineKind::Endif,
        "include_rules" => LineKind::IncludesRules,
        _ => marked_kind(line),
    }
}

/// The kind of a line by its first byte, or by its `=`.
fn marked_kind(line: &str) -> LineKind<'_>
    ensures { specs.in_bytes result ≡ specs.marked_kind line.now }
{
    if let Some(rule) = line.strip_prefix(":") {
        return LineKind::Rules(rule);
    }
    if let Some(macro_line) = line.strip_prefix("!") {
        return match macro_line.split_once('=') {
            Some((name, body)) => LineKind::Defines(name, body),
            None => LineKind::Unknown,
        };
    }
    match line.split_once('=') {
        Some((name, value)) => LineKind::Sets(name, value),
        None => LineKind::Unknown,
    }
}

/// The first word of a line, up to a blank, and what stands behind it, without blanks at its ends.
fn first_word(line: &str) -> (&str, &str)
    ensures word { result.0.now ≡ specs.first_word line.now }
    ensures rest { result.1.now ≡ specs.behind_word line.now }
{
    match blank_in(line.as_bytes()) {
        Some(at) => (&line[..at], trimmed(&line[at..])),
        None => (line, ""),
    }
}

/// The place of the first blank.
fn blank_in(line: &[u8]) -> Option<usize>
    ensures place { result ≡ position blank_test line.now }
    ensures within { IfSome result (λ at. at < length line.now) }
{
    line.iter().position(|byte| is_blank(*byte))
}

/// Whether a byte is a blank.
fn is_blank(byte: u8) -> bool
    ensures { result ≡ blank_test byte }
{
    byte == b' ' || byte == b'\t'
}
