//! The calls of a traced program, by their names and flags.
ghost use Rattle.std.specs.Prelude.{◌≡◌};
ghost use Rattle.tup_strace.specs.Names as specs;

use tup_path::Bytes;

/// Whether a call opens a file.
pub(crate) fn is_opening(name: &[u8]) -> bool
    ensures { result ≡ specs.is_opening name.now }
{
    name == b"open".as_slice() || name == b"openat".as_slice() || name == b"openat2".as_slice()
}

/// Whether a call makes a file, or empties it.
pub(crate) fn is_creating(name: &[u8]) -> bool
    ensures { result ≡ specs.is_creating name.now }
{
    name == b"creat".as_slice()
}

/// Whether a call moves a file or a folder.
pub(crate) fn is_moving(name: &[u8]) -> bool
    ensures { result ≡ specs.is_moving name.now }
{
    name == b"rename".as_slice()
        || name == b"renameat".as_slice()
        || name == b"renameat2".as_slice()
}

/// Whether a call gives a file a second name.
pub(crate) fn is_linking(name: &[u8]) -> bool
    ensures { result ≡ specs.is_linking name.now }
{
    name == b"link".as_slice() || name == b"linkat".as_slice()
}

/// Whether a call makes a link to a place.
pub(crate) fn is_pointing(name: &[u8]) -> bool
    ensures { result ≡ specs.is_pointing name.now }
{
    name == b"symlink".as_slice() || name == b"symlinkat".as_slice()
}

/// Whether a call removes a file or a folder.
pub(crate) fn is_removing(name: &[u8]) -> bool
    ensures { result ≡ specs.is_removing name.now }
{
    name == b"unlink".as_slice() || name == b"unlinkat".as_slice() || name == b"rmdir".as_slice()
}

/// Whether a call makes a folder, a device or a socket.
pub(crate) fn is_making(name: &[u8]) -> bool
    ensures { result ≡ specs.is_making name.now }
{
    name == b"mkdir".as_slice()
        || name == b"mkdirat".as_slice()
        || name == b"mknod".as_slice()
        || name == b"mknodat".as_slice()
        || is_binding(name)
}

/// Whether a call gives a socket its address.
pub(crate) fn is_binding(name: &[u8]) -> bool
    ensures { result ≡ specs.is_binding name.now }
{
    name == b"bind".as_slice()
}

/// Whether a call cuts a file.
pub(crate) fn is_cutting(name: &[u8]) -> bool
    ensures { result ≡ specs.is_cutting name.now }
{
    name == b"truncate".as_slice() || name == b"truncate64".as_slice()
}

/// Whether a call runs a program.
pub(crate) fn is_running(name: &[u8]) -> bool
    ensures { result ≡ specs.is_running name.now }
{
    name == b"execve".as_slice() || name == b"execveat".as_slice()
}

/// Whether a call makes a process.
pub(crate) fn is_forking(name: &[u8]) -> bool
    ensures { result ≡ specs.is_forking name.now }
{
    name == b"clone".as_slice()
        || name == b"clone3".as_slice()
        || name == b"fork".as_slice()
        || name == b"vfork".as_slice()
}

/// Whether a call enters a folder that a text names.
pub(crate) fn is_entering(name: &[u8]) -> bool
    ensures { result ≡ specs.is_entering name.now }
{
    name == b"chdir".as_slice()
}

/// Whether a call enters the folder of a descriptor.
pub(crate) fn is_returning(name: &[u8]) -> bool
    ensures { result ≡ specs.is_returning name.now }
{
    name == b"fchdir".as_slice()
}

/// Whether a call looks at a link itself.
pub(crate) fn is_looking(name: &[u8]) -> bool
    ensures { result ≡ specs.is_looking name.now }
{
    name == b"lstat".as_slice()
        || name == b"readlink".as_slice()
        || name == b"readlinkat".as_slice()
        || name == b"lchown".as_slice()
        || name == b"lgetxattr".as_slice()
        || name == b"llistxattr".as_slice()
        || name == b"lsetxattr".as_slice()
        || name == b"lremovexattr".as_slice()
}

/// Whether a call reads where a link leads.
pub(crate) fn is_reading_link(name: &[u8]) -> bool
    ensures { result ≡ specs.is_reading_link name.now }
{
    name == b"readlink".as_slice() || name == b"readlinkat".as_slice()
}

/// Whether a flag is among words.
pub(crate) fn has(flag: &[u8], words: &[Bytes]) -> bool
    ensures { result ≡ specs.has flag.now words.now }
{
    words.iter().any(|word| word.as_slice() == flag)
}
