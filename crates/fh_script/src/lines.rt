// The lines of a source.
ghost use Rattle.std.specs.Prelude.{◌≡◌, ◌<◌, true, IfOk, IfErr};
ghost use Rattle.fh_script.specs.Lines.{CountsRead, HasLineReason, ReadsLine, line_text};

use crate::faults::LineFault;
use fh_base::{LONGEST_LINE, Source, read_byte};

const LINE_FEED: u8 = b'\n';

/// Reads the next line into the buffer, with its line feed, and says whether there was one. A last line
/// without a line feed counts where it isn't empty.
#[tactic(auto, using(crate::proofs::LineReading::reading))]
pub(crate) fn read_line<S: Source>(source: &mut S, line: &mut Vec<u8>) -> Result<bool, LineFault>
    ensures read { IfOk result (ReadsLine (S.left source.old) (S.left source.new) line.new.items) }
    ensures reason { IfErr result (HasLineReason (S.left source.old) (S.left source.new)) }
    ensures counts { CountsRead (S.read_faults source.old) (S.read_faults source.new) result }
    ensures less { IfOk result (λ found. found ≡ true → S.most source.new < S.most source.old) }
{
    line.clear();
    loop {
        let byte = match read_byte(source) {
            Ok(byte) => byte,
            Err(_) => return Err(LineFault::ReadFault),
        };
        let Some(byte) = byte else {
            if line.is_empty() {
                return Ok(false);
            }
            return Ok(true);
        };
        match line.push(byte) {
            Ok(()) => {}
            Err(_) => return Err(LineFault::NoMemory),
        }
        if byte == LINE_FEED {
            return Ok(true);
        }
        if line.len() > LONGEST_LINE {
            return Err(LineFault::TooLong);
        }
    }
}

/// The line without its line feed, and without one carriage return before that.
pub(crate) fn line_text(line: &[u8]) -> &[u8]
    ensures { result.now ≡ line_text line.entry.now }
{
    if line.ends_with(b"\r\n") {
        return line.split_at(line.len() - 2).0;
    }
    if line.ends_with(b"\n") {
        return line.split_at(line.len() - 1).0;
    }
    line
}
