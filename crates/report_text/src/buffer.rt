// A buffer with room for any report, so that a report's length is known before a byte of the lent buffer changes.
ghost use Rattle.lists.specs.Cleared.{Cleared};
ghost use Rattle.report_text.specs.Report.{report_bytes};

// 44 bytes for each of 4,096 joint states: the line of a path has at most 41, and the rest is room for the other lines.
pub const REPORT_BYTES: usize = 180224;

// Room for any report, cleared.
pub fn empty_report() -> [u8; REPORT_BYTES]
    ensures { Cleared report_bytes result }
{
    [0; REPORT_BYTES]
}
