// The line that sums up a storm.
ghost use Rattle.std.specs.Prelude.{◌≡◌, OnOk};
ghost use Rattle.lpc_storm.specs.Summary.{summary_text};

use lpc_base::OutOfMemory;
use lpc_transcript::{put, put_digits, put_long_number, put_number};

/// What a storm came to.
#[derive(Clone, Copy)]
pub struct Summary {
    /// The lines that were run.
    pub lines: u32,
    /// The entries that they told.
    pub entries: u128,
    /// The object rows that are left.
    pub objects: usize,
    /// How many requests were told that their reply came.
    pub replies: u128,
    /// How many replies fitted no request.
    pub mismatches: u128,
    /// The sum of all bytes of the transcript, modulo 2^32.
    pub sum: u32,
}

/// Writes a storm's summary in place of what the text held: its counts in decimal, and the sum of the transcript's
/// bytes as eight hexadecimal digits. The form is this project's own.
///
/// OutOfMemory comes where memory for the text is wanting; no clause tells more of when it does.
#[tactic(auto, using(std::proofs::Common::append_assoc), unfolding(crate::specs::Summary::summary_text))]
pub fn print_summary(into: &mut Vec<u8>, summary: Summary) -> Result<(), OutOfMemory>
    ensures { OnOk result (into.new.items ≡ summary_text summary) }
{
    into.clear();
    put(into, b"storm lines=")?;
    put_number(into, u64::from(summary.lines))?;
    put(into, b" entries=")?;
    put_long_number(into, summary.entries)?;
    put(into, b" objects=")?;
    put_number(into, summary.objects as u64)?;
    put(into, b" replies=")?;
    put_long_number(into, summary.replies)?;
    put(into, b" mismatches=")?;
    put_long_number(into, summary.mismatches)?;
    put(into, b" sum=")?;
    put_digits(into, summary.sum)?;
    put(into, b"\n")
}
