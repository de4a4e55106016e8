ghost use Rattle.std.specs.Prelude.{◌≡◌, length, map};
ghost use Rattle.sys_guests.specs.Kernel.{IsKernel, Leads, kernel_state, scene};
ghost use Rattle.sys_guests.specs.Layout.{guests_in};
ghost use Rattle.sys_guests.specs.Present.{KeepsAll};
ghost use Rattle.sys_state.specs.FirstTouches.{touches_of_transfers};
ghost use Rattle.sys_state.specs.Transfers.{transfers};

use crate::guests::serve_at;
use sys_guests::Kernel;
use sys_store::Volumes;
use vax_hw::Hardware;
use vv_io::Lines;

/// The transfers of a round, guest by guest, packet by packet.
pub fn transfer<H: Hardware, L: Lines>(
    machine: &mut H,
    lines: &mut L,
    kernel: &mut Kernel,
    volumes: &mut Volumes,
)
    requires holds { IsKernel (H.machine machine.old).memory kernel.old }
    requires volumes { length volumes.old ≡ length kernel.old.config.volumes }
    ensures leads { Leads (transfers kernel.old.config (kernel_state
        (H.machine machine.old).memory kernel.old volumes.old)) (scene (H.machine machine.old) kernel.old (L.lines lines.old)) (scene (H.machine machine.new) kernel.new (L.lines lines.new)) volumes.new }
    ensures sizes { map length volumes.new ≡ map length volumes.old }
    ensures present { KeepsAll (touches_of_transfers kernel.old.config kernel.old.config.guests
        (kernel_state (H.machine machine.old).memory kernel.old volumes.old).mounts
        (guests_in (H.machine machine.old).memory kernel.old.guests.items) volumes.old) kernel.old.guests.items
        kernel.new.guests.items }
{
    for place in 0..kernel.guests.len() {
        serve_at(machine, lines, kernel, volumes, place);
    }
}
