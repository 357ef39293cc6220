//! Laws of the counts, shown by a function that does nothing.

ghost use Rattle.spur_report.specs.Counts.{CountsAddUp, OneCount};

/// Each entry passes the test of exactly one count, which is the one at its place; so the counts of a history add up to the
/// number of its entries.
pub fn each_entry_is_counted_once()
    ensures one { OneCount }
    ensures sum { CountsAddUp }
{}
