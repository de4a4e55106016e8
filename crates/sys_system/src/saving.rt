ghost use Rattle.std.specs.Prelude.{◌≡◌, ◌≤◌, All, IfOk, Ok, false, is_err, length};
ghost use Rattle.sys_config.specs.Config.{config_of};
ghost use Rattle.sys_devices.specs.ShownSince.{ShownSince};
ghost use Rattle.sys_snap.specs.Snap.{IsSound};
ghost use Rattle.sys_snap.specs.Written.{snap_bytes};
ghost use Rattle.sys_system.specs.System.{IsInMachine, moment_of};
ghost use Rattle.vm_state.specs.State.{state_of};

use crate::system::System;
use sys_output::{put_guests, put_head, put_mounts, put_seats, put_volumes};
use vax_hw::Hardware;
use vv_io::{Sink, SinkFault};

impl System {
    /// Shows what the system is between two rounds, of which at most 1,000,000 were made, as the bytes of a snapshot with the
    /// text of its configuration, of at most 262,144 bytes. It takes no memory. After a fault a front of them was shown. Where
    /// all were shown, the guests are known to be sound, and the blocks to have 512 bytes.
    pub fn save<H: Hardware, O: Sink>(
        &self,
        machine: &H,
        config_text: &[u8],
        out: &mut O,
    ) -> Result<(), SinkFault>
        requires rests { self.now.turns.is_begun ≡ false }
        requires few { self.now.rounds ≤ 1000000 }
        requires text { config_of config_text.now ≡ Ok self.now.config }
        requires short { length config_text.now ≤ 262144 }
        requires stands { IsInMachine (H.machine machine.now).memory self.now }
        ensures shown { ShownSince (is_err result) (O.printed out.old) (O.printed out.new)
            (snap_bytes config_text.now (moment_of (H.machine machine.now).memory self.now)) }
        ensures sound { IfOk result (λ _. All (λ k. IsSound (state_of k.state)) self.now.guests) }
        ensures long { IfOk result (λ _. All (λ blocks. All (λ b. length b ≡ 512) blocks) self.now.volumes) }
    {
        let kernel = &self.parts.kernel;
        let config = &kernel.config;
        put_head(out, config_text, self.parts.rounds)?;
        put_seats(out, &kernel.server.at, config.terminals.len())?;
        put_mounts(out, &kernel.server.mounts[..config.guests.len()])?;
        put_guests(machine, out, &kernel.guests)?;
        put_volumes(out, config.volumes.as_slice(), &self.parts.volumes)
    }
}
