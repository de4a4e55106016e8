ghost use Rattle.std.specs.Prelude.{◌≡◌, ◌+◌, ◌-◌, ◌*◌, ◌≤◌, ◌++◌, length, replicate};
ghost use Rattle.std.specs.Int.{from_bool};
ghost use Rattle.vm_clock.specs.Clock.{ClockState};
ghost use Rattle.vm_clock.specs.Parts.{IsClock, parts_of_clock};
ghost use Rattle.vm_console.specs.Console.{IsConsole};
ghost use Rattle.vm_state.specs.State.{state_of};
ghost use Rattle.vv_base.specs.Bytes.{long_bytes, word_bytes};
ghost use Rattle.sys_snap.specs.Pieces.{waiting_bytes};
ghost use Rattle.sys_snap.specs.Snap.{IsSound};
ghost use Rattle.sys_snap.specs.Written.{base_bytes, clock_bytes, console_bytes, end_bytes, flag_byte, guest_record_bytes, level_bytes, longs, queue_bytes, register_bytes};

use vm_clock::Clock;
use vm_console::Console;
use vm_state::{GuestState, StopCode};
use vv_base::{Text, put_u16, put_u32};

/// The byte in place of a stop code where a guest runs.
pub const RUNS: u8 = 0xff;

/// Appends a flag that fits.
fn add_flag(text: &mut Text<439>, flag: bool)
    requires { length text.old + 1 ≤ 439 }
    ensures written { text.new ≡ text.old ++ flag_byte flag }
    ensures len { length text.new ≡ length text.old + 1 }
{
    text.append_byte(u8::from(flag));
}

/// Appends a word that fits.
fn add_word(text: &mut Text<439>, v: u16)
    requires { length text.old + 2 ≤ 439 }
    ensures written { text.new ≡ text.old ++ word_bytes v }
    ensures len { length text.new ≡ length text.old + 2 }
{
    let mut bytes = [0; 2];
    put_u16(&mut bytes, 0, v);
    text.append(&bytes);
}

/// Appends a longword that fits.
fn add_long(text: &mut Text<439>, v: u32)
    requires { length text.old + 4 ≤ 439 }
    ensures written { text.new ≡ text.old ++ long_bytes v }
    ensures len { length text.new ≡ length text.old + 4 }
{
    let mut bytes = [0; 4];
    put_u32(&mut bytes, 0, v);
    text.append(&bytes);
}

/// Appends longwords that fit.
fn add_longs(text: &mut Text<439>, values: &[u32])
    requires { length text.old + 4 * length values.now ≤ 439 }
    ensures written { text.new ≡ text.old ++ longs values.now }
    ensures len { length text.new ≡ length text.old + 4 * length values.now }
{
    for v in values {
        add_long(text, *v);
    }
}

/// Appends the registers.
fn add_registers(text: &mut Text<439>, g: &GuestState)
    requires { length text.old + 88 ≤ 439 }
    ensures written { text.new ≡ text.old ++ register_bytes (state_of g.now) }
    ensures sixteen { length g.now.r ≡ 16 }
    ensures five { length g.now.stacks ≡ 5 }
    ensures len { length text.new ≡ length text.old + 88 }
{
    add_longs(text, &g.r);
    add_long(text, g.psl.0);
    add_longs(text, &g.stacks);
}

/// Appends the table registers.
fn add_bases(text: &mut Text<439>, g: &GuestState)
    requires { length text.old + 32 ≤ 439 }
    ensures written { text.new ≡ text.old ++ base_bytes (state_of g.now) }
    ensures len { length text.new ≡ length text.old + 32 }
{
    add_long(text, g.p0br);
    add_long(text, g.p0lr);
    add_long(text, g.p1br);
    add_long(text, g.p1lr);
    add_long(text, g.sbr);
    add_long(text, g.slr);
    add_long(text, g.pcbb);
    add_long(text, g.scbb);
}

/// Appends ASTLVL, SISR and MAPEN.
fn add_levels(text: &mut Text<439>, g: &GuestState)
    requires { length text.old + 4 ≤ 439 }
    ensures written { text.new ≡ text.old ++ level_bytes (state_of g.now) }
    ensures len { length text.new ≡ length text.old + 4 }
{
    text.append_byte(g.astlvl);
    add_word(text, g.sisr);
    add_flag(text, g.mapen);
}

/// Appends a clock's parts.
fn add_clock(text: &mut Text<439>, clock: &Clock)
    requires { length text.old + 13 ≤ 439 }
    ensures written { text.new ≡ text.old ++ clock_bytes clock.now }
    ensures is { IsClock (parts_of_clock clock.now) }
    ensures len { length text.new ≡ length text.old + 13 }
{
    let parts = clock.parts();
    add_long(text, parts.iccs);
    add_long(text, parts.nicr);
    add_long(text, parts.icr);
    add_flag(text, parts.request);
}

/// Appends zeros that fit.
fn add_zeros(text: &mut Text<439>, count: usize)
    requires { length text.old + count ≤ 439 }
    ensures written { text.new ≡ text.old ++ replicate count 0 }
    ensures len { length text.new ≡ length text.old + count }
{
    for _left in (0..count).rev() {
        text.append_byte(0);
    }
}

/// Appends how many bytes wait, and the bytes, in 256 places.
fn add_waiting(text: &mut Text<439>, waiting: &[u8])
    requires few { length waiting.now ≤ 256 }
    requires room { length text.old + 258 ≤ 439 }
    ensures written { text.new ≡ text.old ++ waiting_bytes waiting.now }
    ensures len { length text.new ≡ length text.old + 258 }
{
    add_word(text, waiting.len() as u16);
    text.append(waiting);
    add_zeros(text, 256 - waiting.len());
}

/// Appends a console's parts.
fn add_console(text: &mut Text<439>, console: &Console)
    requires { length text.old + 262 ≤ 439 }
    ensures written { text.new ≡ text.old ++ console_bytes console.now }
    ensures is { IsConsole console.now }
    ensures few { length console.now.waiting ≤ 256 }
    ensures len { length text.new ≡ length text.old + 262 }
{
    let parts = console.parts();
    add_flag(text, parts.rx_enable);
    add_flag(text, parts.tx_enable);
    add_flag(text, parts.rx_request);
    add_flag(text, parts.tx_request);
    add_waiting(text, parts.waiting.bytes());
}

/// Appends the packets that wait.
fn add_queue(text: &mut Text<439>, g: &GuestState)
    requires { length text.old + 34 ≤ 439 }
    ensures written { text.new ≡ text.old ++ queue_bytes (state_of g.now) }
    ensures len { length text.new ≡ length text.old + 34 }
{
    let packets = g.queue.as_slice();
    add_flag(text, g.kcall_due);
    text.append_byte(packets.len() as u8);
    add_longs(text, packets);
    add_zeros(text, 4 * (8 - packets.len()));
}

/// Appends whether it waits, its stop code, and its steps.
fn add_end(text: &mut Text<439>, g: &GuestState)
    requires { length text.old + 6 ≤ 439 }
    ensures written { text.new ≡ text.old ++ end_bytes (state_of g.now) }
    ensures len { length text.new ≡ length text.old + 6 }
{
    add_flag(text, g.waiting);
    text.append_byte(g.halt.map_or(RUNS, StopCode::number));
    add_long(text, g.steps);
}

/// A guest's state as the 439 bytes of its record.
pub fn guest_record(g: &GuestState) -> [u8; 439]
    ensures is { result ≡ guest_record_bytes (state_of g.now) }
    ensures sound { IsSound (state_of g.now) }
{
    let mut text = Text::new();
    add_registers(&mut text, g);
    add_bases(&mut text, g);
    add_levels(&mut text, g);
    add_clock(&mut text, &g.clock);
    add_console(&mut text, &g.console);
    add_queue(&mut text, g);
    add_end(&mut text, g);
    let mut record = [0; 439];
    record.copy_from_slice(text.bytes());
    record
}
