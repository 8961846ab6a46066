//! What standard error says of a command besides what it prints itself. A line that can't be printed changes nothing.
use crate::seen::Untracked;
use crate::writes::{Large, Remarks};
use tup_path::Text;
use tup_site::MAX_DISK_FILE_BYTES;

/// Tells that files weren't kept.
pub(crate) fn lost(rt: &impl Eprint, lost: u32) {
    if lost > 0 {
        drop(eprintln!(rt; "tup_sh: files with names that tup doesn't see weren't kept: {lost}"));
    }
}

/// Tells what is to be said of what was written.
pub(crate) fn written(rt: &impl Eprint, remarks: &Remarks) {
    for text in remarks.strange.as_slice() {
        drop(eprintln!(rt;
            "tup_sh: {text}: a link, a pipe, a socket or a device can't be an output"
        ));
    }
    for Large { text, len } in &remarks.large {
        drop(eprintln!(rt;
            "tup_sh: {text} has {len} bytes: an output has at most {MAX_DISK_FILE_BYTES}"
        ));
    }
    for text in remarks.closed.as_slice() {
        drop(eprintln!(rt;
            "tup_sh: {text} is for its owner alone: tup writes it so that others may read it"
        ));
    }
}

/// Tells of what was asked for and isn't tracked.
pub(crate) fn unseen(rt: &impl Eprint, untracked: &Untracked) {
    if let Some(text) = &untracked.file {
        drop(eprintln!(rt;
            "tup_sh: reads {text}, which tup doesn't see: its changes won't run this command again"
        ));
    }
    if let Some(text) = &untracked.link {
        drop(eprintln!(rt;
            "tup_sh: {text}: a folder can't be reached through a link: name it by its own path"
        ));
    }
}

/// Tells that a folder was listed.
pub(crate) fn listed(rt: &impl Eprint, text: &Text) {
    drop(eprintln!(rt;
        "tup_sh: lists {text}, and a new file there won't run this command again: use a pattern as input"
    ));
}

/// Tells that it isn't noticed what is changed while a command runs.
pub(crate) fn untimed(rt: &impl Eprint) {
    drop(eprintln!(rt;
        "tup_sh: the project lies on a file system with a clock of its own: what is changed while a command runs isn't noticed"
    ));
}

/// Tells that a command runs once more.
pub(crate) fn again(rt: &impl Eprint, text: &Text) {
    drop(eprintln!(rt; "tup_sh: {text} was changed while it was read: again"));
}
