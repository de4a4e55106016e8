ghost use Rattle.std.specs.Prelude.{◌≡◌, ◌+◌, ◌*◌, ◌≤◌, ◌<◌, ℕ, length, slice_index};
ghost use Rattle.vv_base.specs.Bytes.{long_at, long_bytes, overwritten};
ghost use Rattle.vax_hw.specs.Machine.{Machine};
ghost use Rattle.vax_hw.specs.Real.{real};

use crate::{Exit, World};

/// A machine with the virtual-machine extension. It has no faults of its own.
pub trait Hardware {
    /// Its memory, what is loaded into it, and its three counts, which only `run` raises.
    ghost machine: { Self → Machine };

    /// The pages of 512 bytes that it has, 1 to 65,536, which never change.
    fn pages(&self) -> u32
        ensures all { 512 * result ≡ length (machine self.now).memory }
        ensures some { 1 ≤ result }
        ensures few { result ≤ 65536 };

    /// How many instructions have retired, modulo 2^64.
    fn retired(&self) -> u64
        ensures { result ≡ (machine self.now).retired };

    /// The trail of the instructions that have retired, modulo 2^64.
    fn trail(&self) -> u64
        ensures { result ≡ (machine self.now).trail };

    /// How many runs ended with an entry that wasn't valid, modulo 2^64.
    fn misses(&self) -> u64
        ensures { result ≡ (machine self.now).misses };

    /// The longword at a physical address in bytes. Memory is a list of bytes.
    fn read_long(&self, pa: u32) -> u32
        requires { pa + 4 ≤ length (machine self.now).memory }
        ensures value { result ≡ long_at (machine self.now).memory pa }
        ensures bytes { (at : ℕ) → slice_index (machine self.now).memory at < 256 };

    /// Writes the longword at a physical address in bytes.
    fn write_long(&mut self, pa: u32, v: u32)
        requires { pa + 4 ≤ length (machine self.old).memory }
        ensures { machine self.new ≡ record (machine self.old) { memory = overwritten (machine self.old).memory pa (long_bytes v) } };

    /// Loads registers and tables.
    fn load_world(&mut self, w: &World)
        ensures { machine self.new ≡ record (machine self.old) { world = w.now } };

    /// The registers and tables as they are now.
    fn save_world(&self) -> World
        ensures { result ≡ (machine self.now).world };

    /// Runs at most `budget` instructions, up to one that retires with an arithmetic trap or the first that doesn't retire.
    fn run(&mut self, budget: u32) -> Exit
        requires { 1 ≤ budget }
        ensures { (machine self.new, result) ≡ real budget (machine self.old) };
}
