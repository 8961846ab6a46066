//! How large the project is to be.
ghost use Rattle.std.specs.Prelude.{◌≡◌, ◌-◌, ◌≤◌, IfOk, IfSome};
ghost use Rattle.tup_large.specs.Number as specs;

use tup_top::Word;

/// How many folders the words after `large` ask for, or the place of the first word that can't
/// stand. Places are counted from 1, which is that of `large`; a word that is missing has the place
/// after the last.
pub(crate) fn folders_in(words: &[Word]) -> Result<u32, u32>
    ensures folders { result ≡ specs.folders_in words.now }
    ensures within { IfOk result (λ folders. folders ≤ 1000) }
{
    let Some((word, rest)) = words.split_first() else {
        return Err(2);
    };
    match number_in(word.0.as_str().as_bytes()) {
        Some(folders) if rest.is_empty() => Ok(folders),
        Some(_) => Err(3),
        None => Err(2),
    }
}

/// The number from 1 to 1,000 that digits say, of which the first is no zero.
fn number_in(digits: &[u8]) -> Option<u32>
    ensures number { result ≡ specs.number_in digits.now }
    ensures within { IfSome result (λ number. number ≤ 1000) }
{
    match digits {
        [ones @ b'1'..=b'9'] => Some(digit(*ones)),
        [tens @ b'1'..=b'9', ones @ b'0'..=b'9'] => Some(10 * digit(*tens) + digit(*ones)),
        [
            hundreds @ b'1'..=b'9',
            tens @ b'0'..=b'9',
            ones @ b'0'..=b'9',
        ] => Some(100 * digit(*hundreds) + 10 * digit(*tens) + digit(*ones)),
        [b'1', b'0', b'0', b'0'] => Some(1000),
        _ => None,
    }
}

/// The number that a digit says.
fn digit(byte: u8) -> u32
    requires { (48 ≤ byte) × (byte ≤ 57) }
    ensures { result ≡ byte - 48 }
{
    u32::from(byte) - 48
}
