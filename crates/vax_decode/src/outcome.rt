use vax_table::Decoded;

/// Why no instruction can be at the front of the bytes.
#[derive(Clone, Copy, Debug, PartialEq, Eq)]
pub enum DecodeFault {
    /// No instruction has the opcode bytes.
    Opcode,
    /// A specifier is of a reserved form.
    Addressing,
}

/// Whether a whole instruction is at the front of the bytes, or why there is none.
#[derive(Clone, Copy)]
pub enum Front {
    Done,
    NeedMore,
    Fault(DecodeFault),
}

/// What is at the front of the bytes.
#[derive(Drop)]
pub enum Decode {
    /// A whole instruction, with its length.
    Done(Decoded),
    /// Bytes that begin an instruction and aren't a whole one.
    NeedMore,
    /// Nothing that begins an instruction.
    Fault(DecodeFault),
}
