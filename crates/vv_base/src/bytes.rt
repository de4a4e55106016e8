ghost use Rattle.std.specs.Prelude.{◌≡◌, ◌+◌, ◌≤◌, length};
ghost use Rattle.vv_base.specs.Bytes.{word_at, word_bytes, long_at, long_bytes, overwritten};

use byteorder::{ByteOrder, LittleEndian};

/// The word in the two bytes from `at`, the lower byte first.
pub fn get_u16(b: &[u8], at: usize) -> u16
    requires { at + 2 ≤ length b.now }
    ensures { result ≡ word_at b.now at }
{
    LittleEndian::read_u16(&b[at..])
}

/// The longword in the four bytes from `at`, the lowest byte first.
pub fn get_u32(b: &[u8], at: usize) -> u32
    requires { at + 4 ≤ length b.now }
    ensures { result ≡ long_at b.now at }
{
    LittleEndian::read_u32(&b[at..])
}

/// Writes a word into the two bytes from `at`, the lower byte first; all other bytes stay.
pub fn put_u16(b: &mut [u8], at: usize, v: u16)
    requires { at + 2 ≤ length b.old }
    ensures { b.new ≡ overwritten b.old at (word_bytes v) }
{
    LittleEndian::write_u16(&mut b[at..at + 2], v);
}

/// Writes a longword into the four bytes from `at`, the lowest byte first; all other bytes stay.
pub fn put_u32(b: &mut [u8], at: usize, v: u32)
    requires { at + 4 ≤ length b.old }
    ensures { b.new ≡ overwritten b.old at (long_bytes v) }
{
    LittleEndian::write_u32(&mut b[at..at + 4], v);
}
