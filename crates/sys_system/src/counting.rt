ghost use Rattle.std.specs.Prelude.{◌≡◌, ◌<◌, ◌+◌, ◌^◌};
ghost use Rattle.sys_state.specs.Counts.{added};
ghost use Rattle.vm_stepping.specs.Made.{steps_in, tally_of};

use vm_guest::Counts;

/// Adds the counts of more steps; the trail is modulo 2^64.
pub fn add(total: &mut Counts, more: &Counts)
    requires { steps_in total.old + steps_in more.now < 2 ^ 64 }
    ensures { tally_of total.new ≡ added (tally_of total.old) (tally_of more.now) }
{
    total.plain += more.plain;
    total.sensitive += more.sensitive;
    total.faults += more.faults;
    total.interrupts += more.interrupts;
    total.modify += more.modify;
    total.idle += more.idle;
    total.stopped += more.stopped;
    total.trail = total.trail.wrapping_add(more.trail);
}
