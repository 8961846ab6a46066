//! Who shows what a command printed where this program is killed before it has ended.
use std::alloc::Global;
use std::fs::File;
use std::io;
use std::io::{PipeWriter, pipe};
use std::process::{Command, Processes};
use std::rt::Files;

/// Waits until its standard input is closed, and shows the file then, if it is there still.
const WATCH: &str = "\
trap '' HUP INT QUIT TERM
read -r end
[ -s \"$1\" ] || exit 0
exec >&2
if [ -t 1 ]; then echo; fi
echo 'tup was stopped. A command that ran had printed:'
cat \"$1\"
rm -f \"$1\"\n";

/// The pipe whose other end a shell has as its standard input. It is closed when this program ends, in whatever way.
#[derive(Drop)]
pub(crate) struct Watch {
    _end: PipeWriter,
}

impl Watch {
    /// Starts a shell that shows the file at a place. Whoever shows it before removes it.
    pub(crate) fn start<R: Files<File = File> + Processes>(
        rt: &R,
        alloc: Global,
        place: &str,
    ) -> io::Result<Watch> {
        let (reader, end) = pipe(rt)?;
        let mut shell = Command::new(alloc, "sh")?;
        for word in ["-c", WATCH, "sh", place] {
            shell.arg(word)?;
        }
        shell.stdin(reader);
        // The shell isn't waited for: it ends behind this program.
        drop(shell.spawn(rt)?);
        Ok(Watch { _end: end })
    }
}
