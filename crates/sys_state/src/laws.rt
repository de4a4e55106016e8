ghost use Rattle.sys_state.specs.Laws.{AnySchedule, SameCounts, SameTouches};
ghost use Rattle.sys_state.specs.Parts.{CutsAnywhere};
ghost use Rattle.sys_state.specs.SlicedRound.{AnyRound};

/// However the turns of a round are cut into slices and ordered, each guest and each line ends as the turns say.
pub fn any_schedule()
    ensures { AnySchedule }
{}

/// However the turns of a round are cut into slices and ordered, the counts of steps are the round's.
pub fn same_counts()
    ensures { SameCounts }
{}

/// However the turns of a round are cut into slices and ordered, their first touches are the round's.
pub fn same_touches()
    ensures { SameTouches }
{}

/// However the turns of a round are cut into slices and ordered, the guests, the server's state, the volumes, each line's
/// bytes and the counts of steps are the round's, with its events and transfers.
pub fn any_round()
    ensures { AnyRound }
{}

/// Rounds that are made in two parts, the second from where the first ends, are the rounds of both.
pub fn a_run_is_cut_anywhere()
    ensures { CutsAnywhere }
{}
