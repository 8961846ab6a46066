//! Which names are visible.
ghost use Rattle.std.specs.Prelude.{◌≡◌};
ghost use Rattle.tup_path.specs.Resolve as resolve;

/// Whether a part of a path is a visible name, its length aside.
pub(crate) fn is_visible(name: &str) -> bool
    ensures { result ≡ resolve.is_visible name.now }
{
    let bytes = name.as_bytes();
    !bytes.is_empty() && bytes[0] != b'.' && bytes.iter().all(|byte| is_name_byte(*byte))
}

/// Whether a visible name may have this byte: no slash, no control character, no blank, no DEL.
fn is_name_byte(byte: u8) -> bool
    ensures { result ≡ resolve.is_name_byte byte }
{
    byte > b' ' && byte != 0x7f && byte != b'/'
}
