ghost use Rattle.std.specs.Prelude.{◌≡◌, ◌+◌, ◌-◌, ◌*◌, ◌≤◌, ◌<◌, ◌^◌, length, slice_index, slice_set};
ghost use Rattle.vv_base.specs.Bytes.{long_at};
ghost use Rattle.vv_base.specs.Width.{bits_of, size_of};
ghost use Rattle.vax_hw.specs.RealTables.{everywhere};
ghost use Rattle.vax_paged.specs.InPage.{above_bytes, number_from, number_over, stored_from};

use vv_base::{Width, get_u16, get_u32, put_u16, put_u32};

/// The byte at a place; beyond memory it is 0.
pub fn byte_in(memory: &[u8], at: usize) -> u8
    ensures { result ≡ slice_index memory.now at }
{
    memory.get(at).copied().unwrap_or(0)
}

/// The longword at a place at or over the memory's end, where each byte that lies beyond it is 0.
#[cold]
#[inline(never)]
fn long_at_end(memory: &[u8], at: usize) -> u32
    requires { at ≤ everywhere + 4 }
    ensures { result ≡ long_at memory.now at }
{
    u32::from(byte_in(memory, at))
        + 0x100 * u32::from(byte_in(memory, at + 1))
        + 0x1_0000 * u32::from(byte_in(memory, at + 2))
        + 0x100_0000 * u32::from(byte_in(memory, at + 3))
}

/// The longword at a place; each of its bytes that lies beyond memory is 0.
pub fn long_in(memory: &[u8], at: usize) -> u32
    requires { at ≤ everywhere + 4 }
    ensures { result ≡ long_at memory.now at }
{
    if at + 4 <= memory.len() {
        get_u32(memory, at)
    } else {
        long_at_end(memory, at)
    }
}

/// The word at a place at or over the memory's end.
#[cold]
#[inline(never)]
fn word_at_end(memory: &[u8], at: usize) -> u64
    requires { at ≤ everywhere }
    ensures is { result ≡ number_from memory.now 2 at }
    ensures fits { result < 2 ^ 16 }
{
    u64::from(byte_in(memory, at)) + 0x100 * u64::from(byte_in(memory, at + 1))
}

/// The word at a place; each of its bytes that lies beyond memory is 0.
fn word_in(memory: &[u8], at: usize) -> u64
    requires { at ≤ everywhere }
    ensures is { result ≡ number_from memory.now 2 at }
    ensures fits { result < 2 ^ 16 }
{
    if at + 2 <= memory.len() {
        u64::from(get_u16(memory, at))
    } else {
        word_at_end(memory, at)
    }
}

/// The quadword at a place at or over the memory's end.
#[cold]
#[inline(never)]
fn quad_at_end(memory: &[u8], at: usize) -> u64
    requires { at ≤ everywhere }
    ensures { result ≡ long_at memory.now at + 2 ^ 32 * long_at memory.now (at + 4) }
{
    u64::from(long_in(memory, at)) + 0x1_0000_0000 * u64::from(long_in(memory, at + 4))
}

/// The number of a width at a place at or over the memory's end.
#[cold]
#[inline(never)]
fn number_at_end(memory: &[u8], at: usize, w: Width) -> u64
    requires { at ≤ everywhere }
    ensures is { result ≡ number_from memory.now (size_of w) at }
    ensures fits { result < 256 ^ size_of w }
{
    match w {
        Width::Byte => u64::from(byte_in(memory, at)),
        Width::Word => word_in(memory, at),
        Width::Long => u64::from(long_in(memory, at)),
        Width::Quad => quad_at_end(memory, at),
    }
}

/// The low bits of a number that a width has.
#[inline(always)]
fn mask_of(w: Width) -> u64
    ensures { result ≡ 2 ^ bits_of w - 1 }
{
    match w {
        Width::Byte => 0xFF,
        Width::Word => 0xFFFF,
        Width::Long => 0xFFFF_FFFF,
        Width::Quad => 0xFFFF_FFFF_FFFF_FFFF,
    }
}

/// The number of a width at a place from which memory has eight bytes: of these, so that nothing is chosen by the width.
#[inline(always)]
pub fn number_inside(memory: &[u8], at: usize, w: Width) -> u64
    requires { at + 8 ≤ length memory.now }
    ensures is { result ≡ number_from memory.now (size_of w) at }
    ensures fits { result < 256 ^ size_of w }
{
    let low = u64::from(get_u32(memory, at));
    let high = u64::from(get_u32(memory, at + 4));
    low + 0x1_0000_0000 * high & mask_of(w)
}

/// The number of a width at a place; each of its bytes that lies beyond memory is 0.
#[inline(always)]
pub fn number_in(memory: &[u8], at: usize, w: Width) -> u64
    requires { at ≤ everywhere }
    ensures is { result ≡ number_from memory.now (size_of w) at }
    ensures fits { result < 256 ^ size_of w }
{
    if at + 8 <= memory.len() {
        number_inside(memory, at, w)
    } else {
        number_at_end(memory, at, w)
    }
}

/// The number in `bytes` bytes from a place on, the lowest first; each that lies beyond memory is 0.
#[tactic(auto, using(vax_operand::proofs::ByteByByte::byte_by_byte))]
fn bytes_in(memory: &[u8], at: usize, bytes: u32) -> u64
    requires low { at + bytes ≤ 2 ^ 40 }
    requires few { bytes ≤ 8 }
    ensures is { result ≡ number_from memory.now bytes at }
    ensures fits { result < 256 ^ bytes }
{
    if bytes == 0 {
        return 0;
    }
    let byte = byte_in(memory, at);
    let rest = bytes_in(memory, at + 1, bytes - 1);
    u64::from(byte) + 256 * rest
}

/// The number in `bytes` bytes, of which the first `first` are at one place, and the others at another.
#[tactic(auto, using(vax_operand::proofs::ByteByByte::byte_by_byte))]
pub fn bytes_over(memory: &[u8], first: u32, at: usize, next: usize, bytes: u32) -> u64
    requires low { at + first ≤ 2 ^ 40 }
    requires next { next + bytes ≤ 2 ^ 40 }
    requires few { bytes ≤ 8 }
    ensures is { result ≡ number_over memory.now first bytes at next }
    ensures fits { result < 256 ^ bytes }
{
    if first == 0 {
        return bytes_in(memory, next, bytes);
    }
    if bytes == 0 {
        return 0;
    }
    let byte = byte_in(memory, at);
    let rest = bytes_over(memory, first - 1, at + 1, next, bytes - 1);
    u64::from(byte) + 256 * rest
}

/// Stores a byte in a memory, if it has a place for it.
pub fn store_byte(memory: &mut [u8], at: usize, byte: u8)
    ensures { memory.new ≡ slice_set memory.old at byte }
{
    if at < memory.len() {
        memory[at] = byte;
    }
}

/// Stores the low bytes of a number from a place on, the lowest first.
pub fn store_in(memory: &mut [u8], place: usize, w: Width, value: u64)
    requires { place + size_of w ≤ length memory.old }
    ensures { memory.new ≡ stored_from (size_of w) place value memory.old }
{
    match w {
        Width::Byte => memory[place] = (value % 0x100) as u8,
        Width::Word => put_u16(memory, place, (value % 0x1_0000) as u16),
        Width::Long => put_u32(memory, place, (value % 0x1_0000_0000) as u32),
        Width::Quad => {
            put_u32(memory, place, (value % 0x1_0000_0000) as u32);
            put_u32(
                memory,
                place + 4,
                (value / 0x1_0000_0000 % 0x1_0000_0000) as u32,
            );
        }
    }
}

/// Stores the `bytes` low bytes of a number from a place on, the lowest first. Answers the number above them.
pub fn store_bytes(memory: &mut [u8], place: usize, bytes: u32, value: u64) -> u64
    requires { place + bytes ≤ length memory.old }
    ensures memory { memory.new ≡ stored_from bytes place value memory.old }
    ensures above { result ≡ above_bytes bytes value }
{
    if bytes == 0 {
        return value;
    }
    memory[place] = (value % 0x100) as u8;
    store_bytes(memory, place + 1, bytes - 1, value / 0x100)
}
