//! How a text in quotes is read.
ghost use Rattle.std.specs.Prelude.{◌≡◌, IfOk, OnOk};
ghost use Rattle.tup_trace.specs.Quoting.{is_octal, letter_byte, octal_1, octal_2, octal_3, nothing_read, with_byte, with_plain, with_letter, with_octal, closed, read_quoted, whole, unquoted};
ghost use Rattle.tup_trace.specs.Line.{may_close};

use std::alloc::{AllocError, Global};
use tup_path::Bytes;

/// What the byte before leaves open.
#[derive(Clone, Copy)]
pub(crate) enum Escape {
    /// Nothing: the next byte stands for itself, or begins an escape.
    Outside,
    /// A backslash.
    Backslash,
    /// An octal number of one digit.
    One(u8),
    /// An octal number of two digits.
    Two(u8, u8),
    /// What no text in quotes has.
    Bad,
}

/// A text in quotes, as far as it was read.
#[derive(Drop)]
pub(crate) struct Unquoting {
    pub(crate) text: Bytes,
    pub(crate) escape: Escape,
}

/// The text that was written in quotes so. `None` where an escape isn't one, or isn't whole.
pub fn unquoted(alloc: Global, quoted: &[u8]) -> Result<Option<Bytes>, AllocError>
    ensures { IfOk result (λ text. text ≡ unquoted quoted.now) }
{
    let mut read = Unquoting::new(alloc);
    for byte in quoted {
        read.read(*byte)?;
    }
    read.close()?;
    Ok(read.text())
}

impl Unquoting {
    /// Nothing was read yet.
    pub(crate) fn new(alloc: Global) -> Unquoting
        ensures { result ≡ nothing_read }
    {
        Unquoting {
            text: Bytes::new(Vec::new(alloc)),
            escape: Escape::Outside,
        }
    }

    /// Reads a byte.
    pub(crate) fn read(&mut self, byte: u8) -> Result<(), AllocError>
        ensures { OnOk result (self.new ≡ read_quoted self.old byte) }
    {
        match self.escape {
            Escape::Outside => self.plain(byte),
            Escape::Backslash => self.letter(byte),
            Escape::One(_) | Escape::Two(_, _) if is_octal(byte) => self.octal(byte),
            Escape::One(_) | Escape::Two(_, _) => {
                self.close()?;
                self.plain(byte)
            }
            Escape::Bad => Ok(()),
        }
    }

    /// Reads a byte outside of escapes.
    fn plain(&mut self, byte: u8) -> Result<(), AllocError>
        ensures { OnOk result (self.new ≡ with_plain self.old byte) }
    {
        if byte == b'\\' {
            self.escape = Escape::Backslash;
            Ok(())
        } else {
            self.push(byte)
        }
    }

    /// Reads the byte behind a backslash.
    fn letter(&mut self, byte: u8) -> Result<(), AllocError>
        ensures { OnOk result (self.new ≡ with_letter self.old byte) }
    {
        if is_octal(byte) {
            self.escape = Escape::One(byte);
            return Ok(());
        }
        match letter_byte(byte) {
            Some(byte) => self.push(byte),
            None => {
                self.escape = Escape::Bad;
                Ok(())
            }
        }
    }

    /// Reads the second or third digit of an octal number.
    fn octal(&mut self, byte: u8) -> Result<(), AllocError>
        ensures { OnOk result (self.new ≡ with_octal self.old byte) }
    {
        match self.escape {
            Escape::One(first) => {
                self.escape = Escape::Two(first, byte);
                Ok(())
            }
            Escape::Two(first, second) => match u8::try_from(octal_3(first, second, byte)) {
                Ok(byte) => self.push(byte),
                Err(_) => {
                    self.escape = Escape::Bad;
                    Ok(())
                }
            },
            _ => Ok(()),
        }
    }

    /// Ends an octal number of one or two digits.
    pub(crate) fn close(&mut self) -> Result<(), AllocError>
        ensures { OnOk result (self.new ≡ closed self.old) }
    {
        match self.escape {
            Escape::One(first) => self.push(first % 8),
            Escape::Two(first, second) => self.push(first % 8 * 8 + second % 8),
            _ => Ok(()),
        }
    }

    /// Whether the text may end here: no backslash is open.
    pub(crate) fn may_close(&self) -> bool
        ensures { result ≡ may_close self.now.escape }
    {
        !matches!(self.escape, Escape::Backslash | Escape::Bad)
    }

    /// Adds a byte of the text; nothing is left open.
    pub(crate) fn push(&mut self, byte: u8) -> Result<(), AllocError>
        ensures { OnOk result (self.new ≡ with_byte self.old byte) }
    {
        self.text.extend_from_slice(&[byte])?;
        self.escape = Escape::Outside;
        Ok(())
    }

    /// The text, if nothing is left open.
    fn text(self) -> Option<Bytes>
        ensures { result ≡ whole self }
    {
        match self.escape {
            Escape::Outside => Some(self.text),
            _ => None,
        }
    }
}

/// Whether a byte is an octal digit.
fn is_octal(byte: u8) -> bool
    ensures { result ≡ is_octal byte }
{
    b'0' <= byte && byte < b'8'
}

/// What three octal digits spell. The digit 0 has the code 48, which is a multiple of 8.
fn octal_3(first: u8, second: u8, third: u8) -> u16
    ensures { result ≡ octal_3 first second third }
{
    (first % 8) as u16 * 64 + (second % 8) as u16 * 8 + (third % 8) as u16
}

/// The byte that a letter stands for behind a backslash.
fn letter_byte(letter: u8) -> Option<u8>
    ensures { result ≡ letter_byte letter }
{
    match letter {
        b't' => Some(9),
        b'n' => Some(10),
        b'v' => Some(11),
        b'f' => Some(12),
        b'r' => Some(13),
        b'"' => Some(b'"'),
        b'\\' => Some(b'\\'),
        _ => None,
    }
}
