//! Laws of the text of a group: functions that do nothing, whose `ensures` holds of every group.

ghost use Rattle.liberty_groups.specs.Writing.{WritingReadsBack, WritableParts};

/// A law: the text of a group that can be written is read again as that group, but for offsets and
/// quotes.
pub fn writing_reads_back()
    ensures { WritingReadsBack }
{}

/// A law: what a group and a statement of each form need to be written.
pub fn writable_parts()
    ensures { WritableParts }
{}
