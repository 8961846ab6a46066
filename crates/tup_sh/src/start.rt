//! The command, run apart under the tracer.
use crate::ground::Ground;
use crate::programs::{add_words, command, shell, succeeds};
use crate::script::{GO, GO_AND_KEEP, INSIDE, MISSING, WRAP};
use crate::stage::open_work;
use crate::way::Way;
use std::alloc::Global;
use std::fs::File;
use std::io::{ErrorKind, PipeReader, PipeWriter, Read, Stderr, pipe};
use std::process::{Child, Command, ExitStatus, Processes};
use std::rt::Files;
use std::{fs, str};
use tup_child::{Failure, Tree, Words};
use tup_path::Text;

/// The cause where no namespace could be made.
const NO_NAMESPACE: &str =
    "no namespace could be made: a container has to allow it, or the system user namespaces; `tup_sh --check` says how";
/// The cause where the overlay couldn't be mounted.
const NO_OVERLAY: &str =
    "no overlay could be mounted: `tup_sh --check` says what has to be allowed";
/// The cause where the trace is empty.
const NO_TRACE: &str = "strace couldn't trace: ptrace has to be allowed; `tup_sh --check` says how";
/// The cause where the script couldn't enter the folder of the command.
const NO_FOLDER: &str = "the folder of the command isn't there";
/// The cause where the overlay was mounted and there is no trace.
const NO_STAGE: &str = "another update has taken the stage away";

/// The number with which the script ends where it couldn't enter the folder of the command.
const NOT_ENTERED: i32 = 124;

/// The folder of the stage that holds what the overlay writes where the stage itself can't.
const MEMORY: &str = "memory";

/// What makes namespaces, and ends where whoever started it does.
const SPACES: [&str; 4] = ["setpriv", "--pdeathsig", "KILL", "unshare"];

/// What root gives up, so that the command can't reach around the overlay.
const RIGHTS: &str =
    "-sys_admin,-sys_ptrace,-sys_chroot,-dac_read_search,-mknod,-sys_rawio,-sys_module,-sys_boot";

/// The tracer with its words, up to the calls that it traces.
const TRACER: [&str; 10] = [
    "strace",
    "-f",
    "-q",
    "-y",
    "-s",
    "0",
    "--seccomp-bpf",
    "-e",
    "signal=none",
    "-e",
];

/// The calls that are traced.
const ALL: &str =
    "trace=%file,fchdir,bind,?getdents,?getdents64,?clone,?clone3,?fork,?vfork,?io_uring_setup";

/// The same without those that read a link.
const WITHOUT_LINKS: &str = "\
trace=?access,?faccessat,?faccessat2,?open,?openat,?openat2,?creat,?stat,?lstat,?newfstatat,?fstatat64,?stat64,?lstat64,?statx,\
?execve,?execveat,?chdir,?rename,?renameat,?renameat2,?mkdir,?mkdirat,?rmdir,?unlink,?unlinkat,?link,?linkat,?symlink,?symlinkat,\
?chmod,?fchmodat,?chown,?lchown,?fchownat,?utime,?utimes,?utimensat,?futimesat,?truncate,?truncate64,?mknod,?mknodat,?getcwd,\
?statfs,?statfs64,?getxattr,?lgetxattr,?setxattr,?lsetxattr,?removexattr,?lremovexattr,?listxattr,?llistxattr,?inotify_add_watch,\
?name_to_handle_at,?fanotify_mark,?chroot,?pivot_root,?mount,?umount,?umount2,?uselib,?acct,?swapon,?swapoff,?open_tree,?move_mount,\
?mount_setattr,?fspick,?fsconfig,?quotactl,?fchdir,?bind,?getdents,?getdents64,?clone,?clone3,?fork,?vfork,?io_uring_setup";

/// What stands between them and the program that is traced.
const INTO: [&str; 4] = [
    "-e",
    "inject=?io_uring_setup:error=ENOSYS",
    "-o",
    "/proc/self/fd/9",
];

/// How many bytes are kept of what the programs around a command print.
const MAX_TEXT: usize = 2000;

/// How often a pipe is read at most.
const MAX_READS: u32 = u32::MAX;

/// What the programs around a command print, and where they say that they have come so far.
#[derive(Drop)]
struct Talk {
    reader: PipeReader,
    text: Vec<u8>,
    /// Whether the byte 1 came.
    has_sign: bool,
}

impl Talk {
    /// Nothing was said yet at the other end of a pipe.
    fn of(alloc: Global, reader: PipeReader) -> Talk {
        Talk {
            reader,
            text: Vec::new(alloc),
            has_sign: false,
        }
    }

    /// Listens until the next byte 1, or the end.
    fn hear(&mut self) -> Result<(), Failure> {
        let mut bytes = [0; 256];
        for _ in 0..MAX_READS {
            match self.reader.read(bytes.as_mut_slice()) {
                Ok(0) => return Ok(()),
                Ok(count) => {
                    if self.take(bytes.as_slice(), count)? {
                        return Ok(());
                    }
                }
                Err(e) if e.kind() == ErrorKind::Interrupted => {}
                Err(e) => return Err(Failure::System(e)),
            }
        }
        Ok(())
    }

    /// Takes so many of these bytes, and gives whether the byte 1 is among them.
    fn take(&mut self, bytes: &[u8], count: usize) -> Result<bool, Failure> {
        let mut has_sign = false;
        for byte in bytes.iter().take(count) {
            if *byte == 1 {
                has_sign = true;
            } else if self.text.len() < MAX_TEXT {
                self.text.push(*byte)?;
            }
        }
        self.has_sign = self.has_sign || has_sign;
        Ok(has_sign)
    }

    /// What was printed.
    fn text(&self) -> &[u8] {
        self.text.as_slice()
    }
}

/// How a command is run apart.
#[derive(Clone, Copy)]
pub(crate) struct Apart<'a> {
    pub(crate) words: &'a Words,
    pub(crate) ground: &'a Ground,
    pub(crate) way: Way,
    /// Where the command prints its errors.
    pub(crate) stderr: Stderr,
    /// Whether the calls that read a link are traced.
    pub(crate) sees_links: bool,
}

/// Prints which program isn't installed, and returns whether there is one.
pub(crate) fn names_missing<R: Files<File = File> + Processes + Clone + Drop>(
    tree: &Tree<R>,
) -> bool {
    match shell(tree, MISSING) {
        Ok(mut shell) => !succeeds(&tree.rt, &mut shell),
        Err(_) => false,
    }
}

/// Runs the command under the tracer to its end.
pub(crate) fn start<R: Files<File = File> + Processes + Clone + Drop>(
    tree: &Tree<R>,
    apart: Apart,
) -> Result<(), Failure> {
    let (reader, writer) = pipe(&tree.rt)?;
    let mut child = spawn(tree, apart, writer)?;
    let mut talk = Talk::of(tree.alloc, reader);
    talk.hear()?;
    if talk.has_sign {
        open_work(tree);
        talk.hear()?;
    }
    let status = child.wait()?;
    check(tree, &talk, status)
}

/// Starts the command in namespaces of its own. What the programs around it print goes into a pipe, and what it prints itself to
/// where this program does: that is their standard input.
fn spawn<R: Files<File = File> + Processes + Clone + Drop>(
    tree: &Tree<R>,
    apart: Apart,
    writer: PipeWriter,
) -> Result<Child<R::Started>, Failure> {
    let mut command = command_of(tree, apart)?;
    command.stdin(apart.stderr);
    command.stderr(writer);
    match command.spawn(&tree.rt) {
        Ok(child) => Ok(child),
        Err(e) if e.kind() == ErrorKind::NotFound => Err(Failure::Because(NO_NAMESPACE)),
        Err(e) => Err(Failure::System(e)),
    }
}

/// What runs the command in namespaces of its own. All of it ends where this program does.
fn command_of<R: Files<File = File> + Clone + Drop>(
    tree: &Tree<R>,
    apart: Apart,
) -> Result<Command, Failure> {
    let mut all = command(
        tree,
        "setpriv",
        ["--pdeathsig", "KILL", "unshare"].as_slice(),
    )?;
    add_namespaces(&mut all, apart)?;
    add_script(&mut all, tree, apart)?;
    match apart.way {
        Way::Root => add_as_root(&mut all)?,
        Way::User => add_as_user(tree, &mut all)?,
    }
    add_words(&mut all, TRACER.as_slice())?;
    all.arg(if apart.sees_links { ALL } else { WITHOUT_LINKS })?;
    add_words(&mut all, INTO.as_slice())?;
    let traced = ["/bin/sh", "-c", WRAP, "sh", apart.words.text.as_str()];
    add_words(&mut all, traced.as_slice())?;
    Ok(all)
}

/// Adds which namespaces are made: that of mounts, for a user one of users, and that of processes unless it is made behind the
/// script.
fn add_namespaces(all: &mut Command, apart: Apart) -> Result<(), Failure> {
    all.arg(match apart.way {
        Way::Root => "-m",
        Way::User => "-rm",
    })?;
    if apart.ground.is_fit {
        add_processes(all, apart.ground)?;
    }
    Ok(())
}

/// Adds that a namespace of processes is made. Where something is mounted below `/proc`, as in containers, no user may mount it anew:
/// then it stays as it is.
fn add_processes(all: &mut Command, ground: &Ground) -> Result<(), Failure> {
    add_words(all, ["--pid", "--fork", "--kill-child"].as_slice())?;
    if !ground.is_masked {
        all.arg("--mount-proc")?;
    }
    Ok(())
}

/// Adds the script that lays the overlay, with its words.
fn add_script<R: Files<File = File> + Clone + Drop>(
    all: &mut Command,
    tree: &Tree<R>,
    apart: Apart,
) -> Result<(), Failure> {
    let behind = if apart.ground.is_fit { GO } else { GO_AND_KEEP };
    let upper = if apart.ground.is_fit { "." } else { MEMORY };
    let script = format!(in tree.alloc; "{INSIDE}{behind}")?;
    add_words(all, ["/bin/sh", "-c"].as_slice())?;
    all.arg(script.as_str())?;
    all.arg("sh")?;
    all.arg(tree.root.as_str())?;
    all.arg(apart.words.dir.as_str())?;
    add_words(all, [options(apart.way), upper].as_slice())?;
    add_ground(all, tree, apart.ground)?;
    if !apart.ground.is_fit {
        add_words(all, SPACES.as_slice())?;
        add_processes(all, apart.ground)?;
    }
    Ok(())
}

/// The options of the overlay.
fn options(way: Way) -> &'static str {
    match way {
        Way::Root => "volatile,metacopy=off,redirect_dir=off",
        Way::User => "userxattr,volatile",
    }
}

/// Adds where other file systems are mounted in the project, and where else it stands, each behind its number.
fn add_ground<R: Files<File = File> + Clone + Drop>(
    all: &mut Command,
    tree: &Tree<R>,
    ground: &Ground,
) -> Result<(), Failure> {
    add_number(all, tree, ground.points.len())?;
    for point in &ground.points {
        all.arg(point.as_str())?;
    }
    add_number(all, tree, ground.aliases.len())?;
    for alias in &ground.aliases {
        all.arg(alias.part.as_str())?;
        all.arg(alias.place.as_str())?;
    }
    Ok(())
}

/// Adds a number.
fn add_number<R: Files<File = File> + Clone + Drop>(
    all: &mut Command,
    tree: &Tree<R>,
    number: usize,
) -> Result<(), Failure> {
    let number = format!(in tree.alloc; "{number}")?;
    all.arg(number.as_str())?;
    Ok(())
}

/// Adds the program that gives up root's rights.
fn add_as_root(all: &mut Command) -> Result<(), Failure> {
    let words = ["setpriv", "--bounding-set", RIGHTS, "--inh-caps", RIGHTS];
    add_words(all, words.as_slice())
}

/// Adds the program that gives up the rights that a user has in the namespaces.
fn add_as_user<R: Files<File = File> + Clone + Drop>(
    tree: &Tree<R>,
    all: &mut Command,
) -> Result<(), Failure> {
    let (user, group) = (libc::geteuid(), libc::getegid());
    let user = format!(in tree.alloc; "--map-user={user}")?;
    let group = format!(in tree.alloc; "--map-group={group}")?;
    let words = ["unshare", "-U", user.as_str(), group.as_str()];
    add_words(all, words.as_slice())
}

/// The cause, where the command wasn't run under the tracer.
fn check<R: Files<File = File> + Clone + Drop>(
    tree: &Tree<R>,
    talk: &Talk,
    status: ExitStatus,
) -> Result<(), Failure> {
    let trace = tree.staged("trace")?;
    let cause = match fs::metadata(&tree.rt, trace.as_str()) {
        Err(_) if talk.has_sign => NO_STAGE,
        Err(_) => NO_NAMESPACE,
        Ok(_) if !talk.has_sign => NO_OVERLAY,
        Ok(found) if found.len() == 0 => untraced(status),
        Ok(_) => return Ok(()),
    };
    Err(with_text(tree.alloc, talk.text(), cause)?)
}

/// A cause behind the first line of what was printed, as far as that is a text.
fn with_text(alloc: Global, printed: &[u8], cause: &'static str) -> Result<Failure, Failure> {
    let line = match printed.split(|byte| *byte == b'\n').next() {
        Some(line) => str::from_utf8(line).unwrap_or(""),
        None => "",
    };
    if line.is_empty() || cause == NO_FOLDER {
        return Ok(Failure::Because(cause));
    }
    Ok(Failure::Named {
        name: Text::from_string(format!(in alloc; "{line}: ")?),
        cause,
    })
}

/// The cause, where the trace is empty.
fn untraced(status: ExitStatus) -> &'static str {
    if status.code() == Some(NOT_ENTERED) {
        NO_FOLDER
    } else {
        NO_TRACE
    }
}
