//! One line of a log.
ghost use Rattle.std.specs.Prelude.{◌≡◌};
ghost use Rattle.tup_proc.specs.Log.{is_end as end_test};

use tup_path::Text;
use tup_stamp::Stamp;

/// One line of a log. Texts name files relative to the command's folder.
#[derive(Drop)]
pub enum LogLine {
    /// It asked for this text, and found a content with this stamp.
    Read { stamp: Stamp, text: Text },
    /// It asked for this text, and found nothing.
    Absent { text: Text },
    /// It wrote this text, and the content is in the file of this number.
    Wrote { file: u32, text: Text },
    /// It ended with this status; no line follows.
    End { status: u8 },
}

impl LogLine {
    /// Whether no line follows.
    pub fn is_end(&self) -> bool
        ensures { result ≡ end_test self.now }
    {
        matches!(self, LogLine::End { .. })
    }
}
