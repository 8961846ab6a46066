//! Which files may be run. No mode is kept: the content of a file says what it is.
ghost use Rattle.std.specs.Prelude.{◌≡◌};
ghost use Rattle.tup_fs.specs.Program as specs;

/// The length of an ELF header up to the end of the kind of the file.
const ELF_KIND_END: usize = 18;

/// Whether a content is a program: a script that begins with `#!`, or an ELF program or shared
/// object.
pub(crate) fn is_program(content: &[u8]) -> bool
    ensures { result ≡ specs.is_program content.now }
{
    content.starts_with(b"#!") || is_elf_program(content)
}

/// Whether the header of an ELF file says that it is a program or a shared object. Its byte 5 says
/// in which order the two bytes of the kind stand.
fn is_elf_program(content: &[u8]) -> bool
    ensures { result ≡ specs.is_elf_program content.now }
{
    if content.len() < ELF_KIND_END || !content.starts_with(b"\x7fELF") {
        return false;
    }
    match content[5] {
        1 => is_run(content[16], content[17]),
        2 => is_run(content[17], content[16]),
        _ => false,
    }
}

/// Whether the kind with these two bytes is a program, 2, or a shared object, 3; most programs are
/// shared objects too.
fn is_run(low: u8, high: u8) -> bool
    ensures { result ≡ specs.is_run low high }
{
    high == 0 && (low == 2 || low == 3)
}
