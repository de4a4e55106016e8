//! Laws of what rounds keep of any moment, of stop codes, and of purged moments.
#![tactic(auto)]

ghost use Rattle.sys_moment_laws.specs.ConsistentState.{MomentsAreConsistent, OpeningIsConsistent, RoundsKeepConsistency, RunsAreConsistent};
ghost use Rattle.sys_moment_laws.specs.Halts.{StopsWithCodes};
ghost use Rattle.sys_moment_laws.specs.Holds.{RoundsKeep, RunsKeep};
ghost use Rattle.sys_moment_laws.specs.Separate.{MomentsAreSeparate, RoundsKeepPurges};

/// A guest that runs, or has stopped with a stop code, does so after any steps.
pub fn a_guest_stops_with_a_code()
    ensures { StopsWithCodes }
{}

/// Rounds keep that no guest is at two terminals, and that each runs or has stopped with a stop code.
pub fn rounds_keep_them()
    ensures rounds { RoundsKeep }
    ensures runs { RunsKeep }
{}

/// From any moment on, rounds keep the seats' and mounts' rules and that each guest runs or has stopped with a stop code.
pub fn rounds_keep_a_moment_right()
    ensures rounds { RoundsKeepConsistency }
    ensures moments { MomentsAreConsistent }
{}

/// Of an accepted configuration they hold at power-up, and so after each run.
pub fn runs_stand_right()
    ensures opens { OpeningIsConsistent }
    ensures runs { RunsAreConsistent }
{}

/// From any moment on that rounds can lead to, each device and volume gets what it gets when all whose class doesn't flow into its
/// own was taken out of the moment and of the events. Such rounds lead to the purge of the moment after all rounds.
pub fn moments_are_separate()
    ensures separate { MomentsAreSeparate }
    ensures purges { RoundsKeepPurges }
{}
