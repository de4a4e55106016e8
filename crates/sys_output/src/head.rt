ghost use Rattle.std.specs.Prelude.{◌≤◌, is_err, length};
ghost use Rattle.vv_base.specs.Bytes.{long_bytes};
ghost use Rattle.sys_devices.specs.ShownSince.{ShownSince};
ghost use Rattle.sys_output.specs.Parts.{head_bytes};

use vv_base::put_u32;
use vv_io::{Sink, SinkFault};

/// Shows bytes.
pub fn put<O: Sink>(out: &mut O, bytes: &[u8]) -> Result<(), SinkFault>
    ensures { ShownSince (is_err result) (O.printed out.old) (O.printed out.new) bytes.now }
{
    out.put(bytes)
}

/// Shows a longword, its lowest byte first.
fn put_long<O: Sink>(out: &mut O, v: u32) -> Result<(), SinkFault>
    ensures { ShownSince (is_err result) (O.printed out.old) (O.printed out.new) (long_bytes v) }
{
    let mut bytes = [0; 4];
    put_u32(&mut bytes, 0, v);
    put(out, &bytes)
}

/// Shows what comes before the state: what the bytes are, the text of the configuration with its length, and how many
/// rounds were made.
pub fn put_head<O: Sink>(out: &mut O, text: &[u8], made: u32) -> Result<(), SinkFault>
    requires { length text.now ≤ 262144 }
    ensures { ShownSince (is_err result) (O.printed out.old) (O.printed out.new) (head_bytes text.now made) }
{
    put(out, b"VVSNAP1\n")?;
    put_long(out, text.len() as u32)?;
    put(out, text)?;
    put_long(out, made)
}
