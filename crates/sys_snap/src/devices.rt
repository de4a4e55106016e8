ghost use Rattle.std.specs.Prelude.{◌≡◌, ◌*◌, ◌+◌, ◌-◌, ◌==◌, ◌≤◌, [], IfErr, IfOk, Ok, Err, OnOk, length, nat_le, true};
ghost use Rattle.std.specs.List.{list_all};
ghost use Rattle.sys_snap.specs.Conditions.{is_iccs, is_packet, needs};
ghost use Rattle.sys_snap.specs.Fronts.{after_front};
ghost use Rattle.sys_snap.specs.Parts.{end_of, queue_of};
ghost use Rattle.sys_snap.specs.Reader.{clock_in, console_reading, end_in, halt_in, is_count, packets_in, queue_in, waiting_in};
ghost use Rattle.sys_snap.specs.Reading.{field, flag, four, one, two};
ghost use Rattle.sys_snap.specs.Reads.{Reads, ReadsSeen};
ghost use Rattle.vv_base.specs.Bits.{is_set};

use crate::cursor::{Cursor, flag, long};
use crate::fault::SnapFault;
use crate::record::RUNS;
use arrayvec::ArrayVec;
use vm_clock::{Clock, ClockParts};
use vm_console::{Console, ConsoleParts};
use vm_state::StopCode;
use vv_base::{Text, get_u16};

/// Bit 6 of ICCS: a wrap requests an interrupt.
const ENABLE: u32 = 0x40;

/// ICCS: only bits 0, 6, 7 and 31 may be set.
fn iccs(r: &mut Cursor) -> Result<u32, SnapFault>
    ensures reads { Reads (four is_iccs) r.old r.new result }
    ensures is { IfOk result (λ v. is_iccs v ≡ true) }
{
    let place = r.place();
    let v = long(r)?;
    if v / 2 % 32 != 0 || v / 0x100 % 0x80_0000 != 0 {
        return Err(SnapFault { place });
    }
    Ok(v)
}

fn is_enabled(iccs: u32) -> bool
    ensures { result ≡ is_set iccs 6 }
{
    iccs / ENABLE % 2 == 1
}

/// A request, which needs its enable.
fn request(r: &mut Cursor, enable: bool) -> Result<bool, SnapFault>
    ensures reads { Reads (flag (needs enable)) r.old r.new result }
    ensures is { IfOk result (λ q. needs enable q ≡ true) }
{
    let place = r.place();
    let request = flag(r)?;
    if request && !enable {
        return Err(SnapFault { place });
    }
    Ok(request)
}

/// The clock, 13 bytes.
pub fn read_clock(r: &mut Cursor) -> Result<Clock, SnapFault>
    ensures { Reads clock_in r.old r.new result }
{
    let iccs = iccs(r)?;
    let nicr = long(r)?;
    let icr = long(r)?;
    let request = request(r, is_enabled(iccs))?;
    Ok(Clock::of_parts(&ClockParts {
        iccs,
        nicr,
        icr,
        request,
    }))
}

/// How many typed bytes wait: at most 256, and some where a byte's interrupt is requested.
fn count(r: &mut Cursor, request: bool) -> Result<u16, SnapFault>
    ensures reads { Reads (two (is_count request)) r.old r.new result }
    ensures is { IfOk result (λ n. is_count request n ≡ true) }
{
    let place = r.place();
    let count = get_u16(r.cut(2)?, 0);
    if count > 256 || request && count == 0 {
        return Err(SnapFault { place });
    }
    Ok(count)
}

fn are_zero(bytes: &[u8]) -> bool
    ensures { result ≡ list_all (λ b. b == 0) bytes.now }
{
    bytes.iter().all(|b| *b == 0)
}

/// The bytes that wait, in 256 places, of which the others are 0.
fn waiting(r: &mut Cursor, count: u16) -> Result<Text<256>, SnapFault>
    requires { count ≤ 256 }
    ensures reads { Reads (field 256 (waiting_in count)) r.old r.new result }
    ensures len { IfOk result (λ w. length w ≡ count) }
{
    let place = r.place();
    let (own, rest) = r.cut(256)?.split_at(usize::from(count));
    if !are_zero(rest) {
        return Err(SnapFault { place });
    }
    Ok(Text::from_bytes(own))
}

/// The console, 262 bytes.
pub fn read_console(r: &mut Cursor) -> Result<Console, SnapFault>
    ensures { Reads console_reading r.old r.new result }
{
    let rx_enable = flag(r)?;
    let tx_enable = flag(r)?;
    let rx_request = request(r, rx_enable)?;
    let tx_request = request(r, tx_enable)?;
    let count = count(r, rx_request)?;
    let waiting = waiting(r, count)?;
    Ok(Console::of_parts(&ConsoleParts {
        rx_enable,
        tx_enable,
        rx_request,
        tx_request,
        waiting,
    }))
}

/// Packets that wait for their transfers, and whether a transfer's interrupt is due.
#[derive(Drop)]
pub struct Queue {
    pub due: bool,
    pub packets: ArrayVec<u32, 8>,
}

fn packet_count(r: &mut Cursor) -> Result<u8, SnapFault>
    ensures reads { Reads (one (λ n. nat_le n 8)) r.old r.new result }
    ensures few { IfOk result (λ n. n ≤ 8) }
{
    let place = r.place();
    let count = r.cut(1)?[0];
    if count > 8 {
        return Err(SnapFault { place });
    }
    Ok(count)
}

/// A packet's address, in a memory of `size` bytes.
fn packet(r: &mut Cursor, size: u32) -> Result<u32, SnapFault>
    ensures { Reads (four (is_packet size)) r.old r.new result }
{
    let place = r.place();
    let v = long(r)?;
    if v % 4 != 0 || u64::from(v) + 24 > u64::from(size) {
        return Err(SnapFault { place });
    }
    Ok(v)
}

fn no_packet(r: &mut Cursor) -> Result<u32, SnapFault>
    ensures { Reads (four (λ v. v == 0)) r.old r.new result }
{
    let place = r.place();
    let v = long(r)?;
    if v != 0 {
        return Err(SnapFault { place });
    }
    Ok(v)
}

/// `places` places without a packet.
fn no_packets(r: &mut Cursor, size: u32, places: u8) -> Result<(), SnapFault>
    ensures ok { OnOk result (packets_in size 0 places r.old ≡ Ok (record { value = []; rest = r.new })) }
    ensures err { IfErr result (λ f. packets_in size 0 places r.old ≡ Err f) }
{
    for _left in (0..places).rev() {
        no_packet(r)?;
    }
    Ok(())
}

/// `count` packets, in the first of eight places; the other places are left to read.
fn packets_alone(r: &mut Cursor, size: u32, count: u8) -> Result<ArrayVec<u32, 8>, SnapFault>
    requires { count ≤ 8 }
    ensures ok { IfOk result (λ q. packets_in size count 8 r.old ≡ after_front q.items (packets_in size 0 (8 - count) r.new)) }
    ensures err { IfErr result (λ f. packets_in size count 8 r.old ≡ Err f) }
{
    let mut packets = ArrayVec::new();
    for _left in (0..count).rev() {
        packets.push(packet(r, size)?);
    }
    Ok(packets)
}

/// `count` packets, in eight places, of which the others are 0.
fn packets(r: &mut Cursor, size: u32, count: u8) -> Result<ArrayVec<u32, 8>, SnapFault>
    requires { count ≤ 8 }
    ensures { ReadsSeen (λ q. q.items) (packets_in size count 8) r.old r.new result }
{
    let packets = packets_alone(r, size, count)?;
    no_packets(r, size, 8 - count)?;
    Ok(packets)
}

/// The queue, 34 bytes, of a guest with `size` bytes of memory.
pub fn read_queue(r: &mut Cursor, size: u32) -> Result<Queue, SnapFault>
    ensures { ReadsSeen queue_of (queue_in size) r.old r.new result }
{
    let due = flag(r)?;
    let count = packet_count(r)?;
    let packets = packets(r, size, count)?;
    Ok(Queue { due, packets })
}

/// Whether a guest waits, the code with which it stopped, and its steps.
#[derive(Clone, Copy)]
pub struct End {
    pub waiting: bool,
    pub halt: Option<StopCode>,
    pub steps: u32,
}

/// A stop code, or FF where a guest runs.
fn halt(r: &mut Cursor) -> Result<Option<StopCode>, SnapFault>
    ensures { Reads (field 1 halt_in) r.old r.new result }
{
    let place = r.place();
    let byte = r.cut(1)?[0];
    if byte == RUNS {
        return Ok(None);
    }
    match StopCode::from_number(byte) {
        Some(code) => Ok(Some(code)),
        None => Err(SnapFault { place }),
    }
}

/// The end of a record, 6 bytes.
pub fn read_end(r: &mut Cursor) -> Result<End, SnapFault>
    ensures { ReadsSeen end_of end_in r.old r.new result }
{
    let waiting = flag(r)?;
    let halt = halt(r)?;
    let steps = long(r)?;
    Ok(End {
        waiting,
        halt,
        steps,
    })
}
