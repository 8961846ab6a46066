//! Kinds of fault in a Tupfile.
ghost use Rattle.std.specs.Prelude.{Some};

use std::fmt;
use thiserror::Error;
use tup_path::Text;

/// What is wrong with a line of a Tupfile, of a file that it includes, or of tup.config.
#[derive(Clone, Debug, PartialEq, Eq, Drop, Error)]
pub enum ParseKind {
    /// The file isn't UTF-8.
    NotUtf8,
    /// A joined line has more than 65,535 bytes, or an expanded text more than 1,048,576.
    LineTooLong,
    /// The line is of no kind that a Tupfile has.
    UnknownLine,
    /// A rule that hasn't exactly two arrows.
    NoArrow,
    /// A word that can't stand where it does.
    BadBrace,
    /// The letters or the display text at the head of a command are wrong.
    BadCaret,
    /// A bracket, or the comma between two, is missing.
    Unclosed,
    /// A name that isn't one, or that isn't free to be used so.
    BadName,
    /// An `else` without an open conditional.
    StrayElse,
    /// An `endif` without an open conditional.
    StrayEndif,
    /// A conditional that is left open.
    MissingEndif,
    /// A line of tup.config that sets nothing.
    ConfigLine,
    /// A glob has a `[` without a `]`.
    OpenBracket,
    /// A percent sign before a character that makes no flag.
    UnknownFlag,
    /// A percent flag that has no meaning where it stands.
    FlagNotHere,
    /// A macro that isn't defined.
    NoSuchMacro,
    /// A bin that nothing was given to.
    NoSuchBin,
    /// A macro that is defined already.
    DefinedTwice,
    /// An input that isn't there.
    MissingInput,
    /// An output that an earlier rule has, or this one has twice.
    DuplicateOutput,
    /// An output that is a source file.
    OutputIsSource,
    /// An output that is a directory.
    OutputIsDir,
    /// An output that may not stand there.
    ForeignOutput,
    /// An output below a file, or above another output.
    OutputBelowFile,
    /// Two commands of one directory with the same text.
    DuplicateCommand,
    /// The user's own fault, with its expanded text.
    UserError(Text),
    /// A file to be included isn't there.
    IncludeMissing,
    /// Too many files or conditionals are open at once.
    TooDeep,
}

impl fmt::Display for ParseKind {
    ghost use Rattle.tup_lex.specs.ParseKind.{kind_text};

    ghost output = { λ kind. Some (kind_text kind) };

    fn fmt<W: fmt::Write>(&self, f: &mut fmt::Formatter<W>) -> fmt::Result {
        f.write_str(match self {
            ParseKind::NotUtf8 => "not UTF-8",
            ParseKind::LineTooLong => "line too long",
            ParseKind::UnknownLine => "unknown line",
            ParseKind::NoArrow => "a rule has two arrows",
            ParseKind::BadBrace => "bad word",
            ParseKind::BadCaret => "bad caret part",
            ParseKind::Unclosed => "unclosed bracket",
            ParseKind::BadName => "bad name",
            ParseKind::StrayElse => "else without if",
            ParseKind::StrayEndif => "endif without if",
            ParseKind::MissingEndif => "if without endif",
            ParseKind::ConfigLine => "bad config line",
            ParseKind::OpenBracket => "open bracket in glob",
            ParseKind::UnknownFlag => "unknown percent flag",
            ParseKind::FlagNotHere => "percent flag not allowed here",
            ParseKind::NoSuchMacro => "no such macro",
            ParseKind::NoSuchBin => "no such bin",
            ParseKind::DefinedTwice => "macro defined twice",
            ParseKind::MissingInput => "missing input",
            ParseKind::DuplicateOutput => "output named twice",
            ParseKind::OutputIsSource => "output is a source file",
            ParseKind::OutputIsDir => "output is a directory",
            ParseKind::ForeignOutput => "output stands elsewhere",
            ParseKind::OutputBelowFile => "output stands below a file",
            ParseKind::DuplicateCommand => "command given twice",
            ParseKind::UserError(text) => return write!(f, "error: {}", text.as_str()),
            ParseKind::IncludeMissing => "include file missing",
            ParseKind::TooDeep => "nested too deep",
        })
    }
}
