//! A guest's console registers RXCS, RXDB, TXCS, TXDB, and the port that shown bytes go to. Its receiver and its transmitter each
//! request an interrupt.
#![tactic(auto)]

ghost use Rattle.std.specs.Prelude.{◌≡◌, ◌≤◌, ◌/◌, ◌%◌, ◌==◌, length};
ghost use Rattle.vm_console.specs.Console.{initial_console, IsConsole, has_room, after_typed, rxcs_of, rxdb_of, after_rxdb_read, after_rxcs_write, txcs_of, after_txcs_write, after_sent, after_rx_taken, after_tx_taken};
ghost use Rattle.vm_console.specs.Parts.{console_of_parts, parts_of_console};

mod kept_port;
mod port;

use arrayvec::ArrayVec;
pub use kept_port::KeptPort;
pub use port::{NullPort, Port, show_all};
use std::marker::Model;
use vv_base::Text;

/// How many typed bytes wait at most.
const MOST_WAITING: usize = 256;

/// Enable, bit 6 of RXCS and TXCS.
const ENABLE: u32 = 0x40;

/// Done, bit 7 of RXCS, and ready, bit 7 of TXCS.
const READY: u32 = 0x80;

/// A console as plain data: enables, requests, and the typed bytes that wait.
#[derive(Drop)]
pub struct ConsoleParts {
    pub rx_enable: bool,
    pub tx_enable: bool,
    pub rx_request: bool,
    pub tx_request: bool,
    pub waiting: Text<256>,
}

/// A console, seen as the record of its enables, its requests and the typed bytes that wait.
#[derive(Drop)]
pub struct Console {
    waiting: ArrayVec<u8, MOST_WAITING>,
    rx_enable: bool,
    rx_request: bool,
    tx_enable: bool,
    tx_request: bool,
}

impl Model for Console {
    ghost use Rattle.vm_console.specs.Console.{ConsoleState, IsConsole};

    ghost Value = { ConsoleState };

    ghost view = { λ c. record { waiting = c.waiting.items; rx_enable = c.rx_enable; rx_request = c.rx_request; tx_enable = c.tx_enable; tx_request = c.tx_request } };

    ghost invariant = { λ c. IsConsole (record { waiting = c.waiting.items; rx_enable = c.rx_enable; rx_request = c.rx_request; tx_enable = c.tx_enable; tx_request = c.tx_request }) };
}

impl Console {
    /// A console with no waiting byte, nothing enabled and nothing requested.
    pub fn new() -> Self
        ensures { result ≡ initial_console }
    {
        Console {
            waiting: ArrayVec::new(),
            rx_enable: false,
            rx_request: false,
            tx_enable: false,
            tx_request: false,
        }
    }

    /// Appends a typed byte to those that wait; false exactly where 256 wait already, and then nothing changes.
    pub fn type_byte(&mut self, b: u8) -> bool
        ensures taken { result ≡ has_room self.old }
        ensures after { self.new ≡ after_typed self.old b }
    {
        let first = self.waiting.is_empty();
        if self.waiting.try_push(b).is_err() {
            return false;
        }
        self.rx_request = self.rx_request || first && self.rx_enable;
        true
    }

    /// What reading RXCS gives: done (a byte waits) and enable.
    pub fn read_rxcs(&self) -> u32
        ensures { result ≡ rxcs_of self.now }
    {
        READY * u32::from(!self.waiting.is_empty()) + ENABLE * u32::from(self.rx_enable)
    }

    /// Reads RXDB: takes the first waiting byte, or reads 0.
    pub fn read_rxdb(&mut self) -> u32
        ensures value { result ≡ rxdb_of self.old }
        ensures after { self.new ≡ after_rxdb_read self.old }
    {
        let byte = self.waiting.pop_at(0).unwrap_or(0);
        self.rx_request = !self.waiting.is_empty() && (self.rx_request || self.rx_enable);
        u32::from(byte)
    }

    /// Writes RXCS, of which only enable can be written.
    pub fn write_rxcs(&mut self, v: u32)
        ensures { self.new ≡ after_rxcs_write self.old v }
    {
        let enable = enables(v);
        let newly = !self.rx_enable && !self.waiting.is_empty();
        self.rx_request = enable && (self.rx_request || newly);
        self.rx_enable = enable;
    }

    /// What reading TXCS gives: ready, always, and enable.
    pub fn read_txcs(&self) -> u32
        ensures { result ≡ txcs_of self.now }
    {
        READY + ENABLE * u32::from(self.tx_enable)
    }

    /// Writes TXCS, of which only enable can be written.
    pub fn write_txcs(&mut self, v: u32)
        ensures { self.new ≡ after_txcs_write self.old v }
    {
        let enable = enables(v);
        self.tx_request = enable && (self.tx_request || !self.tx_enable);
        self.tx_enable = enable;
    }

    /// A byte was sent to the port.
    pub fn sent(&mut self)
        ensures { self.new ≡ after_sent self.old }
    {
        self.tx_request = self.tx_request || self.tx_enable;
    }

    /// Whether a receive interrupt is requested.
    pub fn rx_due(&self) -> bool
        ensures { result ≡ self.now.rx_request }
    {
        self.rx_request
    }

    /// Whether a transmit interrupt is requested.
    pub fn tx_due(&self) -> bool
        ensures { result ≡ self.now.tx_request }
    {
        self.tx_request
    }

    /// Ends the receive request: its interrupt was taken.
    pub fn rx_taken(&mut self)
        ensures { self.new ≡ after_rx_taken self.old }
    {
        self.rx_request = false;
    }

    /// Ends the transmit request: its interrupt was taken.
    pub fn tx_taken(&mut self)
        ensures { self.new ≡ after_tx_taken self.old }
    {
        self.tx_request = false;
    }

    /// The console as plain data.
    pub fn parts(&self) -> ConsoleParts
        ensures value { result ≡ parts_of_console self.now }
        ensures back { console_of_parts result ≡ self.now }
        ensures fits { IsConsole (console_of_parts result) }
    {
        ConsoleParts {
            rx_enable: self.rx_enable,
            tx_enable: self.tx_enable,
            rx_request: self.rx_request,
            tx_request: self.tx_request,
            waiting: Text::from_bytes(self.waiting.as_slice()),
        }
    }

    /// The console with these parts.
    pub fn of_parts(p: &ConsoleParts) -> Console
        requires { IsConsole (console_of_parts p.now) }
        ensures value { result ≡ console_of_parts p.now }
        ensures back { parts_of_console result ≡ p.now }
    {
        Console {
            waiting: waiting_of(p.waiting.bytes()),
            rx_enable: p.rx_enable,
            rx_request: p.rx_request,
            tx_enable: p.tx_enable,
            tx_request: p.tx_request,
        }
    }
}

/// Whether a written value sets enable, its bit 6.
fn enables(value: u32) -> bool
    ensures { result ≡ (value / 64 % 2 == 1) }
{
    value / ENABLE % 2 == 1
}

fn waiting_of(bytes: &[u8]) -> ArrayVec<u8, MOST_WAITING>
    requires { length bytes.now ≤ 256 }
    ensures { result.items ≡ bytes.now }
{
    let mut waiting = ArrayVec::new();
    let pushed = waiting.try_extend_from_slice(bytes);
    prove!(pushed.is_ok());
    waiting
}
