ghost use Rattle.std.specs.Prelude.{◌≡◌, ◌+◌, ◌^◌, ◌≤◌, IfOk, Some, length};
ghost use Rattle.sys_snap.specs.Conditions.{any};
ghost use Rattle.sys_snap.specs.Reader.{either, longs_in};
ghost use Rattle.sys_snap.specs.Reading.{field, flag, four};
ghost use Rattle.sys_snap.specs.Reads.{Reads, ReadsSeen};

use crate::fault::SnapFault;
use std::marker::Model;
use vv_base::get_u32;

/// Bytes that are read from the front: what is left of them, and the place that is reached.
#[derive(Drop)]
pub struct Cursor<'a> {
    at: u32,
    bytes: &'a [u8],
}

impl<'a> Model for Cursor<'a> {
    ghost use Rattle.std.specs.Prelude.{◌+◌, ◌^◌, ◌≤◌, length};
    ghost use Rattle.sys_snap.specs.Reading.{Rest};

    ghost Value = { Rest };

    ghost view = { λ r. record { at = r.at; bytes = r.bytes.now } };

    ghost invariant = { λ r. r.at + length r.bytes.now ≤ 2 ^ 31 };
}

impl<'a> Cursor<'a> {
    /// All of the bytes, at most 2^31.
    pub fn new(bytes: &'a [u8]) -> Self
        requires { length bytes.now ≤ 2 ^ 31 }
        ensures { result ≡ record { at = 0; bytes = bytes.now } }
    {
        Cursor { at: 0, bytes }
    }

    /// The place that is reached.
    pub fn place(&self) -> u32
        ensures { result ≡ self.now.at }
    {
        self.at
    }

    /// How many bytes are left.
    pub fn left(&self) -> usize
        ensures { result ≡ length self.now.bytes }
    {
        self.bytes.len()
    }

    /// A field of `size` bytes.
    pub fn cut(&mut self, size: u32) -> Result<&'a [u8], SnapFault>
        ensures reads { ReadsSeen (λ w. w.now) (field size (λ b. Some b)) self.old self.new result }
        ensures len { IfOk result (λ w. length w.now ≡ size) }
    {
        if (size as usize) > self.bytes.len() {
            return Err(SnapFault { place: self.at });
        }
        let (own, rest) = self.bytes.split_at(size as usize);
        self.bytes = rest;
        self.at += size;
        Ok(own)
    }
}

/// A flag, 0 or 1.
pub fn flag(r: &mut Cursor) -> Result<bool, SnapFault>
    ensures { Reads (flag either) r.old r.new result }
{
    let place = r.place();
    match r.cut(1)? {
        [0] => Ok(false),
        [1] => Ok(true),
        _ => Err(SnapFault { place }),
    }
}

/// A longword of any value.
pub fn long(r: &mut Cursor) -> Result<u32, SnapFault>
    ensures { Reads (four any) r.old r.new result }
{
    let own = r.cut(4)?;
    Ok(get_u32(own, 0))
}

/// Longwords of any value.
pub fn longs<const N: usize>(r: &mut Cursor) -> Result<[u32; N], SnapFault>
    ensures { Reads (longs_in N) r.old r.new result }
{
    let mut values = [0; N];
    for i in 0..N {
        values[i] = long(r)?;
    }
    Ok(values)
}
