ghost use Rattle.vvmm_call.specs.Answer.{FollowsTrace};
ghost use Rattle.sys_runs.specs.Besides.{MissesArePaid};
ghost use Rattle.vvmm_laws.specs.Complete.{CompletesImage};
ghost use Rattle.vvmm_laws.specs.Traced.{TraceIsSolo};

/// What `trace` leaves of the shelf, the machine, the lines and the drives is what `solo` leaves for the same words, and so is its
/// answer, over an output that fails where that of `trace` fails.
pub fn a_trace_is_the_run_of_solo()
    ensures { TraceIsSolo }
{}

/// A held image within the limit that fits, and no risen count, give `Done` of `trace`, or `NoMemory` before anything is shown.
pub fn trace_is_complete()
    ensures { CompletesImage (FollowsTrace MissesArePaid) }
{}
