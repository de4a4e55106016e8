ghost use Rattle.std.specs.Prelude.{None};

use crate::faults::counted;
use crate::found::unfit;
use crate::stat::Identity;
use vv_io::{Sink, SinkFault};

/// Standard output, or standard error. A copy shows to the same file.
#[derive(Clone, Copy)]
pub struct OutSink<P: Print + Copy> {
    stream: P,
    /// Which file it is, where the system says so.
    identity: Option<Identity>,
    is_shut: bool,
    faults: u64,
}

impl<P: Print + Copy> OutSink<P> {
    /// A sink that has not failed.
    pub fn new(stream: P, identity: Option<Identity>) -> Self {
        OutSink {
            stream,
            identity,
            is_shut: false,
            faults: 0,
        }
    }

    /// Where this is the file of a device, each put is a fault from now on: nothing but the device's own bytes get there.
    pub fn keep_from(&mut self, device: Option<Identity>) {
        if self.identity.is_some() && self.identity == device {
            self.is_shut = true;
        }
    }
}

impl<P: Print + Copy> Sink for OutSink<P> {
    ghost printed = { λ s. record { shown = None; faults = s.faults } };

    fn put(&mut self, bytes: &[u8]) -> Result<(), SinkFault> {
        let done = if self.is_shut {
            Err(unfit())
        } else {
            self.stream.write_all(bytes)
        };
        counted(&mut self.faults, done, SinkFault)
    }
}
