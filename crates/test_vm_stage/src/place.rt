use vm_state::GuestState;

/// A register of a guest by its name, or a longword of its memory. The bits of PSL are one register, and so are the stop code and
/// whether there is one. `Typed` is the number of bytes that wait at the console, `Packets` that of the packets that wait, and
/// `Steps` what UPTIME reads.
#[derive(Clone, Copy, Debug, PartialEq, Eq)]
pub enum Place {
    R(usize),
    Psl,
    Stack(usize),
    P0br,
    P0lr,
    P1br,
    P1lr,
    Sbr,
    Slr,
    Mapen,
    Pcbb,
    Scbb,
    Astlvl,
    Sisr,
    Iccs,
    Nicr,
    Icr,
    ClockDue,
    Rxcs,
    RxDue,
    Txcs,
    TxDue,
    Typed,
    KcallDue,
    Packets,
    Packet(usize),
    Waits,
    IsStopped,
    StopCode,
    Steps,
    ModifyFaults,
    Long(u32),
}

/// All registers, by their names.
pub static REGISTERS: [(&'static str, Place); 57] = [
    ("R0", Place::R(0)),
    ("R1", Place::R(1)),
    ("R2", Place::R(2)),
    ("R3", Place::R(3)),
    ("R4", Place::R(4)),
    ("R5", Place::R(5)),
    ("R6", Place::R(6)),
    ("R7", Place::R(7)),
    ("R8", Place::R(8)),
    ("R9", Place::R(9)),
    ("R10", Place::R(10)),
    ("R11", Place::R(11)),
    ("R12", Place::R(12)),
    ("R13", Place::R(13)),
    ("R14", Place::R(14)),
    ("R15", Place::R(15)),
    ("Psl", Place::Psl),
    ("Stack0", Place::Stack(0)),
    ("Stack1", Place::Stack(1)),
    ("Stack2", Place::Stack(2)),
    ("Stack3", Place::Stack(3)),
    ("Stack4", Place::Stack(4)),
    ("P0br", Place::P0br),
    ("P0lr", Place::P0lr),
    ("P1br", Place::P1br),
    ("P1lr", Place::P1lr),
    ("Sbr", Place::Sbr),
    ("Slr", Place::Slr),
    ("Mapen", Place::Mapen),
    ("Pcbb", Place::Pcbb),
    ("Scbb", Place::Scbb),
    ("Astlvl", Place::Astlvl),
    ("Sisr", Place::Sisr),
    ("Iccs", Place::Iccs),
    ("Nicr", Place::Nicr),
    ("Icr", Place::Icr),
    ("ClockDue", Place::ClockDue),
    ("Rxcs", Place::Rxcs),
    ("RxDue", Place::RxDue),
    ("Txcs", Place::Txcs),
    ("TxDue", Place::TxDue),
    ("Typed", Place::Typed),
    ("KcallDue", Place::KcallDue),
    ("Packets", Place::Packets),
    ("Packet0", Place::Packet(0)),
    ("Packet1", Place::Packet(1)),
    ("Packet2", Place::Packet(2)),
    ("Packet3", Place::Packet(3)),
    ("Packet4", Place::Packet(4)),
    ("Packet5", Place::Packet(5)),
    ("Packet6", Place::Packet(6)),
    ("Packet7", Place::Packet(7)),
    ("Waits", Place::Waits),
    ("IsStopped", Place::IsStopped),
    ("StopCode", Place::StopCode),
    ("Steps", Place::Steps),
    ("ModifyFaults", Place::ModifyFaults),
];

/// A list's element, or 0.
fn element(list: &[u32], n: usize) -> u32 {
    list.get(n).copied().unwrap_or(0)
}

impl Place {
    /// The place that a text names: a register's name, or the address of a longword in hex.
    pub fn named(text: &str) -> Option<Place> {
        match REGISTERS.iter().find(|register| register.0 == text) {
            Some(register) => Some(register.1),
            None => u32::from_str_radix(text, 16).ok().map(|pa| Place::Long(pa)),
        }
    }

    /// What a guest has there; 0 of what isn't a register.
    pub fn of(self, g: &GuestState) -> u32 {
        match self {
            Place::R(n) => element(&g.r, n),
            Place::Psl => g.psl.0,
            Place::Stack(n) => element(&g.stacks, n),
            Place::P0br => g.p0br,
            Place::P0lr => g.p0lr,
            Place::P1br => g.p1br,
            Place::P1lr => g.p1lr,
            Place::Sbr => g.sbr,
            Place::Slr => g.slr,
            Place::Mapen => u32::from(g.mapen),
            Place::Pcbb => g.pcbb,
            Place::Scbb => g.scbb,
            Place::Astlvl => u32::from(g.astlvl),
            Place::Sisr => u32::from(g.sisr),
            Place::Iccs => g.clock.read_iccs(),
            Place::Nicr => g.clock.parts().nicr,
            Place::Icr => g.clock.read_icr(),
            Place::ClockDue => u32::from(g.clock.due()),
            Place::Rxcs => g.console.read_rxcs(),
            Place::RxDue => u32::from(g.console.rx_due()),
            Place::Txcs => g.console.read_txcs(),
            Place::TxDue => u32::from(g.console.tx_due()),
            Place::Typed => g.console.parts().waiting.bytes().len() as u32,
            Place::KcallDue => u32::from(g.kcall_due),
            Place::Packets => g.queue.len() as u32,
            Place::Packet(n) => element(g.queue.as_slice(), n),
            Place::Waits => u32::from(g.waiting),
            Place::IsStopped => u32::from(g.halt.is_some()),
            Place::StopCode => g.halt.map_or(0, |code| u32::from(code.number())),
            Place::Steps => g.steps,
            Place::ModifyFaults => u32::from(g.modify_faults),
            Place::Long(_) => 0,
        }
    }

    /// Puts a value there: into the clock and the console as a program writes them. A typed byte comes, a byte has been sent, and
    /// a request of 0 has been taken. What can't be put is left.
    pub fn put_into(self, g: &mut GuestState, v: u32) {
        match self {
            Place::R(n) if n < 16 => g.r[n] = v,
            Place::Psl => g.psl.0 = v,
            Place::Stack(n) if n < 5 => g.stacks[n] = v,
            Place::P0br => g.p0br = v,
            Place::P0lr => g.p0lr = v,
            Place::P1br => g.p1br = v,
            Place::P1lr => g.p1lr = v,
            Place::Sbr => g.sbr = v,
            Place::Slr => g.slr = v,
            Place::Mapen => g.mapen = v == 1,
            Place::Pcbb => g.pcbb = v,
            Place::Scbb => g.scbb = v,
            Place::Astlvl => g.astlvl = (v % 0x100) as u8,
            Place::Sisr => g.sisr = (v % 0x1_0000) as u16,
            Place::Iccs => g.clock.write_iccs(v),
            Place::Nicr => g.clock.write_nicr(v),
            Place::Rxcs => g.console.write_rxcs(v),
            Place::Txcs => g.console.write_txcs(v),
            Place::Typed => {
                let _ = g.console.type_byte((v % 0x100) as u8);
            }
            Place::ClockDue => g.clock.taken(),
            Place::RxDue => g.console.rx_taken(),
            Place::TxDue if v == 0 => g.console.tx_taken(),
            Place::TxDue => g.console.sent(),
            Place::KcallDue => g.kcall_due = v == 1,
            Place::Packet(_) => {
                let _ = g.queue.try_push(v);
            }
            Place::Waits => g.waiting = v == 1,
            Place::Steps => g.steps = v,
            Place::ModifyFaults => g.modify_faults = v == 1,
            _ => {}
        }
    }
}
