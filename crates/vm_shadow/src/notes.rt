ghost use Rattle.vm_shadow.specs.Shadowed.{Fits, Remembers};
ghost use Rattle.vm_shadow.specs.StandsFor.{Notes};

use crate::Shadow;
use crate::flags::{is_flagged, set_flag};
use vax_hw::Hardware;

impl Shadow {
    /// A frame of the guest was written, or will be: all that was read from it is dropped.
    #[tactic(auto, using(crate::proofs::Noting::note_none, crate::proofs::Noting::note_all))]
    pub fn note_write<H: Hardware>(&mut self, machine: &mut H, frame: u32)
        requires fits { Fits (H.machine machine.old).memory self.old }
        requires remembers { Remembers self.old }
        ensures { Notes frame (H.machine machine.old) self.old (H.machine machine.new) self.new }
    {
        if is_flagged(&self.consulted, frame) {
            self.reads.drop_read_from(machine, self.at, frame);
            set_flag(&mut self.consulted, frame, false);
        }
    }
}
