//! How a log is written.
ghost use Rattle.std.specs.Prelude.{◌≡◌, ◌⊎◌, Err, Ok, MatchResult};
ghost use Rattle.tup_proc.specs.Log.{spelling, spelling_of};

use crate::fault::LogFault;
use crate::line::LogLine;
use std::alloc::Global;
use tup_path::Bytes;
use tup_stamp::hex;

/// The lines in their order, each with a line feed behind it.
pub fn write_log(alloc: Global, lines: &[LogLine]) -> Result<Bytes, LogFault>
    ensures { (result ≡ Err LogFault.Memory) ⊎ (result ≡ Ok (spelling lines.now)) }
{
    let mut bytes = Vec::new(alloc);
    for line in lines {
        let spelled = spelled(alloc, line)?;
        bytes.extend_from_slice(spelled.as_slice())?;
        bytes.push(b'\n')?;
    }
    Ok(Bytes::new(bytes))
}

/// One line, without its line feed.
fn spelled(alloc: Global, line: &LogLine) -> Result<Vec<u8>, LogFault>
    ensures { MatchResult result
        (λ bytes. bytes.items ≡ spelling_of line.now) (λ fault. fault ≡ LogFault.Memory) }
{
    let mut bytes = Vec::new(alloc);
    match line {
        LogLine::Read { stamp, text } => {
            bytes.extend_from_slice(b"R ")?;
            bytes.extend_from_slice(&hex(stamp))?;
            bytes.push(b' ')?;
            bytes.extend_from_slice(text.as_str().as_bytes())?;
        }
        LogLine::Absent { text } => {
            bytes.extend_from_slice(b"A ")?;
            bytes.extend_from_slice(text.as_str().as_bytes())?;
        }
        LogLine::Wrote { file, text } => {
            bytes.extend_from_slice(b"W ")?;
            bytes.extend_from_slice(format!(in alloc; "{file} ")?.as_bytes())?;
            bytes.extend_from_slice(text.as_str().as_bytes())?;
        }
        LogLine::End { status } => {
            bytes.extend_from_slice(b"E ")?;
            bytes.extend_from_slice(format!(in alloc; "{status}")?.as_bytes())?;
        }
    }
    Ok(bytes)
}
