ghost use Rattle.std.specs.Prelude.{◌≡◌, ◌<◌, length, All};
ghost use Rattle.sys_devices.specs.Shows.{Shows};
ghost use Rattle.sys_guests.specs.Kernel.{IsKernel, scene};
ghost use Rattle.sys_objects.specs.Condition.{IsPrinter};
ghost use Rattle.sys_state.specs.State.{bytes_on};
ghost use Rattle.sys_transfers.specs.Serves.{MountsNameVolumes, guest_scene};
ghost use Rattle.sys_transfers.specs.ServesAll.{ServesAt, ServesGuest, all_packets};
ghost use Rattle.vm_guest.specs.Kept.{IsShadowedIn, guest_in};

use crate::printing::print_job_on;
use crate::serving::serve;
use sys_devices::Marks;
use sys_guests::Kernel;
use sys_objects::{Config, GuestRow, Mount};
use sys_store::Volumes;
use vax_hw::Hardware;
use vm_guest::Guest;
use vv_io::Lines;

/// A guest's packets are served in the order of its queue, and none waits then. Its printer is shown each job.
fn serve_guest<H: Hardware, L: Lines>(
    machine: &mut H,
    marks: &mut Marks,
    lines: &mut L,
    guest: &mut Guest,
    config: &Config,
    row: &GuestRow,
    units: &[Option<Mount>; 4],
    volumes: &mut Volumes,
)
    requires stands { IsShadowedIn (H.machine machine.old).memory guest.old }
    requires mounted { MountsNameVolumes units.now volumes.old }
    requires printers { All IsPrinter config.now.printers }
    ensures serves { ServesGuest config.now row.now units.now
        (guest_scene volumes.old (H.machine machine.old) guest.old)
        (guest_scene volumes.new (H.machine machine.new) guest.new) }
    ensures shows { Shows marks.old marks.new (L.lines lines.old) (L.lines lines.new)
        (λ line. bytes_on line (all_packets config.now row.now units.now
        (guest_in (H.machine machine.old).memory guest.old) volumes.old).puts) }
{
    let queue = guest.take_queue();
    for packet in queue.as_slice() {
        let job = serve(machine, guest, row, units, volumes, *packet);
        print_job_on(marks, lines, config, row.printer, &job);
    }
}

/// The packets of the guest at a place are served.
pub fn serve_at<H: Hardware, L: Lines>(
    machine: &mut H,
    lines: &mut L,
    kernel: &mut Kernel,
    volumes: &mut Volumes,
    place: usize,
)
    requires holds { IsKernel (H.machine machine.old).memory kernel.old }
    requires there { place < length kernel.old.config.guests }
    requires volumes { length volumes.old ≡ length kernel.old.config.volumes }
    ensures { ServesAt place (scene (H.machine machine.old) kernel.old (L.lines lines.old)) volumes.old
        (scene (H.machine machine.new) kernel.new (L.lines lines.new)) volumes.new }
{
    let config = &kernel.config;
    let row = &config.guests.as_slice()[place];
    let units = kernel.server.mounts[place];
    let guest = &mut kernel.guests[place];
    let marks = &mut kernel.marks;
    serve_guest(machine, marks, lines, guest, config, row, &units, volumes);
}
