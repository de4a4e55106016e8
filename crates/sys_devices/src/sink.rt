ghost use Rattle.std.specs.Prelude.{is_err};
ghost use Rattle.sys_devices.specs.ShownSince.{ShownSince};

use vv_io::{Sink, SinkFault};

/// Puts bytes once.
pub fn put_once<O: Sink>(out: &mut O, bytes: &[u8]) -> Result<(), SinkFault>
    ensures { ShownSince (is_err result) (O.printed out.old) (O.printed out.new) bytes.now }
{
    out.put(bytes)
}
