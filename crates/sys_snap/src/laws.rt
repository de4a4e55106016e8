ghost use Rattle.sys_snap.specs.Laws.{AreOfOneMoment, ReadsEach, ReadsOnlySnaps, RefusedAreNone};

/// Each snapshot is read as what it was written of.
pub fn snapshots_are_read_exactly()
    ensures { ReadsEach }
{}

/// Whatever bytes are read as a moment are a snapshot of it.
pub fn only_snapshots_are_read()
    ensures { ReadsOnlySnaps }
{}

/// A snapshot is of one moment, and bytes that are refused are a snapshot of none.
pub fn a_snapshot_is_of_one_moment()
    ensures one { AreOfOneMoment }
    ensures none { RefusedAreNone }
{}
