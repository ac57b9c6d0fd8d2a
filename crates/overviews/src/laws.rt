//! Laws of what is shown, over all histories: functions without effect, whose contracts are the laws.

ghost use Rattle.overviews.specs.TraceLaws.{TracesAreConserved, TracesAgreeWithNotices, TracesForetellNotices};

/// What a trace shows as received and written on is what it shows as written off, in bins, on stages and in shipments.
pub fn traces_are_conserved()
    ensures { TracesAreConserved }
{}

/// The trace of a recalled lot shows the bins and the shipments of its recall notice, and nothing staged.
pub fn traces_agree_with_notices()
    ensures { TracesAgreeWithNotices }
{}

/// The recall notice that a lot would have names the shipments of its trace, and its bins with all that is staged in the bin
/// RETURNS.
pub fn traces_foretell_notices()
    ensures { TracesForetellNotices }
{}
