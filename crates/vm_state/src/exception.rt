use crate::MemFault;
use vax_arch::Mode;

/// An exception or an interrupt, with what is pushed besides PC and PSL. `Arithmetic` has the trap's type, `Chm` the mode
/// that the instruction names and its sign-extended code, `Interrupt` its level and its vector's offset, and
/// `ModifyFault` the address of the byte whose page has its modify bit clear.
#[derive(Clone, Copy, Debug, PartialEq, Eq)]
pub enum Exc {
    ReservedInstruction,
    Customer,
    ReservedOperand,
    ReservedAddressing,
    Memory(MemFault),
    Breakpoint,
    Arithmetic(u8),
    KernelStack,
    Chm { to: Mode, code: u32 },
    Interrupt { level: u8, vector: u32 },
    ModifyFault { va: u32 },
}
