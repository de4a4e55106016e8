ghost use Rattle.std.specs.Prelude.{◌≡◌, ◌*◌, IfOk, length, map, vec_len};
ghost use Rattle.sys_guests.specs.Layout.{guests_in};
ghost use Rattle.sys_guests.specs.Loads.{MemoryAlone};
ghost use Rattle.sys_guests.specs.Present.{HavePresent};
ghost use Rattle.sys_state.specs.FirstTouches.{none_touched};
ghost use Rattle.sys_objects.specs.Condition.{IsConfig};
ghost use Rattle.sys_system.specs.Faults.{Powers};
ghost use Rattle.sys_system.specs.System.{IsSystem};

use crate::assembling::assemble;
use crate::system::System;
use std::alloc::Global;
use sys_devices::{LoadFault, load_volumes};
use sys_guests::first_misfit;
use sys_objects::Config;
use vax_hw::Hardware;
use vv_base::NoMemory;
use vv_io::Drive;

/// Why a system has no power.
#[derive(Clone, Copy, Debug, PartialEq, Eq)]
pub enum PowerFault {
    /// The image of this guest doesn't fit its memory.
    Image(u8),
    /// The drive of this volume has another number of blocks.
    VolumeSize(u8),
    /// This drive failed.
    DriveIn(u8),
    /// Memory ran out.
    NoMemory,
}

impl From<NoMemory> for PowerFault {
    ghost use Rattle.sys_system.specs.declared.power.PowerFault.TheVariants.{NoMemory as OutOfMemory};

    ghost from_gives = { λ _ e. e ≡ OutOfMemory };

    fn from(_: NoMemory) -> PowerFault {
        PowerFault::NoMemory
    }
}

impl From<LoadFault> for PowerFault {
    ghost use Rattle.sys_system.specs.Faults.{power_fault};

    ghost from_gives = { λ f e. e ≡ power_fault f };

    fn from(fault: LoadFault) -> PowerFault {
        match fault {
            LoadFault::VolumeSize(volume) => PowerFault::VolumeSize(volume),
            LoadFault::DriveIn(drive) => PowerFault::DriveIn(drive),
            LoadFault::NoMemory => PowerFault::NoMemory,
        }
    }
}

impl System {
    /// Lays the guests of an accepted configuration out in a machine of 32,768 pages, loads their images, one for each, and
    /// reads the volumes from their drives; guests that start by themselves run. All memory is taken here. After a fault
    /// the machine's memory may hold anything; its counts are as before, and no drive got a set.
    pub fn power_up<H: Hardware>(
        alloc: Global,
        config: Config,
        images: &[Vec<u8>],
        machine: &mut H,
        drives: &mut Vec<Box<dyn Drive>>,
    ) -> Result<System, PowerFault>
        requires accepted { IsConfig config }
        requires images { length images.now ≡ length config.guests }
        requires pages { length (H.machine machine.old).memory ≡ 512 * 32768 }
        requires drives { vec_len drives.old ≡ 16 }
        ensures powers { Powers config (map (λ b. b.items) images.now) (map (λ d. kept d) drives.old.items)
            (map (λ d. kept d) drives.new.items) (H.machine machine.new) result }
        ensures present { IfOk result (λ s. HavePresent s.guests (map none_touched (guests_in (H.machine machine.new).memory s.guests))) }
        ensures alone { MemoryAlone (H.machine machine.old) (H.machine machine.new) }
        ensures holds { IfOk result IsSystem }
        ensures len { vec_len drives.new ≡ vec_len drives.old }
    {
        if let Some(guest) = first_misfit(config.guests.as_slice(), images) {
            return Err(PowerFault::Image(guest));
        }
        let volumes = load_volumes(alloc, config.volumes.as_slice(), drives)?;
        let parts = assemble(alloc, config, images, machine, volumes)?;
        Ok(System { parts })
    }
}
