ghost use Rattle.vm_simulation_laws.specs.Bursts.{RunsGoAsTheGuest};
ghost use Rattle.vm_simulation_laws.specs.Laws.{ClaimedFramesAreWritten, ExitsMeetTheGuest, RetiresTheGuest};

/// An exit of the machine before an instruction is the outcome of the guest's own, or a page that isn't filled or opened.
pub fn exits_meet_the_guest()
    ensures { ExitsMeetTheGuest }
{}

/// An instruction that the machine retires is one that the guest completes.
pub fn instructions_retire_as_the_guests()
    ensures { RetiresTheGuest }
{}

/// The frames that a plain instruction claims are those that it writes.
pub fn claimed_frames_are_written()
    ensures { ClaimedFramesAreWritten }
{}

/// A run of the machine is as many plain steps of the guest as instructions retired.
pub fn runs_go_as_the_guest()
    ensures { RunsGoAsTheGuest }
{}
