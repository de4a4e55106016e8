ghost use Rattle.std.specs.Prelude.{◌≡◌, ◌*◌, IfOk, length, map, vec_len};
ghost use Rattle.sys_guests.specs.Layout.{guests_in};
ghost use Rattle.sys_guests.specs.Loads.{MemoryAlone};
ghost use Rattle.sys_guests.specs.Present.{HavePresent};
ghost use Rattle.sys_snap.specs.Held.{HoldsMoment, snapshot_moment};
ghost use Rattle.sys_snap.specs.Snap.{IsMoment};
ghost use Rattle.sys_state.specs.FirstTouches.{none_touched};
ghost use Rattle.sys_system.specs.Snaps.{Resumes};
ghost use Rattle.sys_system.specs.System.{IsSystem};

use crate::assembling::assemble_again;
use crate::power::PowerFault;
use crate::system::System;
use std::alloc::Global;
use sys_devices::first_of_another_size;
use sys_snap::Snap;
use vax_hw::Hardware;
use vv_io::Drive;

impl System {
    /// Lays the guests of a snapshot out in a machine of 32,768 pages, with their memories; the volumes have its blocks. The
    /// drives are asked for their sizes alone. All memory is taken here. After a fault, which is never of an image or of a
    /// drive, the machine's memory may hold anything; its counts are as before.
    pub fn resume<H: Hardware>(
        alloc: Global,
        snap: Snap,
        machine: &mut H,
        drives: &Vec<Box<dyn Drive>>,
    ) -> Result<System, PowerFault>
        requires held { HoldsMoment snap }
        requires moment { IsMoment (snapshot_moment snap) }
        requires pages { length (H.machine machine.old).memory ≡ 512 * 32768 }
        requires drives { vec_len drives.now ≡ 16 }
        ensures resumes { Resumes (snapshot_moment snap) (map (λ d. kept d) drives.now.items) (H.machine machine.new) result }
        ensures present { IfOk result (λ s. HavePresent s.guests (map none_touched (guests_in (H.machine machine.new).memory s.guests))) }
        ensures alone { MemoryAlone (H.machine machine.old) (H.machine machine.new) }
        ensures holds { IfOk result IsSystem }
    {
        if let Some(volume) = first_of_another_size(snap.config.volumes.as_slice(), drives) {
            return Err(PowerFault::VolumeSize(volume));
        }
        let parts = assemble_again(alloc, snap, machine)?;
        Ok(System { parts })
    }
}
