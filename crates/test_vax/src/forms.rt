//! By which form an instruction is done. No clause says which instructions have a normal form, and one without costs three or
//! four times as much.

ghost use Rattle.vax_table.specs.Spelling.{IsWellFormed, view};

use Form::{AtOnce, Bit, ByPlan, Call, InMemory, Indexed, Probe, Quad, Return, Status};
use std::process::Abort;
use vax_decode::{Decode, Decoded, decode};
use vax_normal::{Rarer, in_memory_of, normal_of, rarer_of};
use vax_operand::Prepared;

/// A normal form, or none.
#[derive(Clone, Copy, PartialEq, Eq)]
enum Form {
    /// Without a reference to memory.
    AtOnce,
    /// Arithmetic with a reference or two, or a push.
    InMemory,
    /// CLRQ or MOVQ.
    Quad,
    /// MOVPSL.
    Status,
    Probe,
    /// BSBx.
    Call,
    /// RSB.
    Return,
    /// BBx of memory.
    Bit,
    /// Arithmetic with an index.
    Indexed,
    /// By the operands and the plan.
    ByPlan,
}

/// One of the rarer forms.
fn rarer(form: &Rarer) -> Form {
    match form {
        Rarer::Moves(_) => Quad,
        Rarer::MovesStatus(_) => Status,
        Rarer::Probes(_) => Probe,
        Rarer::Calls(_) => Call,
        Rarer::Returns => Return,
        Rarer::TestsBit(_) => Bit,
        Rarer::ComputesIndexed(_) => Indexed,
    }
}

/// The form of an instruction, looked for in the order in which the machine does.
fn form_of(prepared: &Prepared) -> Form
    requires { IsWellFormed (view prepared.now.decoded) }
{
    if normal_of(prepared).is_some() {
        return AtOnce;
    }
    if in_memory_of(prepared).is_some() {
        return InMemory;
    }
    match rarer_of(prepared) {
        Some(form) => rarer(&form),
        None => ByPlan,
    }
}

/// That of an instruction that isn't prepared yet.
fn form_decoded(decoded: Decoded) -> Form
    requires { IsWellFormed (view decoded) }
{
    form_of(&Prepared::new(decoded))
}

/// That of the instruction that the bytes are.
fn form_at(code: &[u8]) -> Option<Form> {
    match decode(code) {
        Decode::Done(decoded) => Some(form_decoded(decoded)),
        _ => None,
    }
}

static FORMS: [(&[u8], Form); 75] = [
    // NOP; BRB, BRW and BNEQ; BLBS and BLBC of R1; SOBGEQ and SOBGTR of R1
    (&[0x01], AtOnce),
    (&[0x11, 0x05], AtOnce),
    (&[0x31, 0x00, 0x01], AtOnce),
    (&[0x12, 0x05], AtOnce),
    (&[0xe8, 0x51, 0x05], AtOnce),
    (&[0xe9, 0x51, 0x05], AtOnce),
    (&[0xf4, 0x51, 0xfa], AtOnce),
    (&[0xf5, 0x51, 0xfa], AtOnce),
    // BBS #3,R1 and BBC #31,R1
    (&[0xe0, 0x03, 0x51, 0x05], AtOnce),
    (&[0xe1, 0x1f, 0x51, 0x05], AtOnce),
    // INCL R0; MOVL R1,R0; MOVL #5,R0; MOVL #12345678,R0; MOVB R1,R0; CLRL R0
    (&[0xd6, 0x50], AtOnce),
    (&[0xd0, 0x51, 0x50], AtOnce),
    (&[0xd0, 0x05, 0x50], AtOnce),
    (&[0xd0, 0x8f, 0x78, 0x56, 0x34, 0x12, 0x50], AtOnce),
    (&[0x90, 0x51, 0x50], AtOnce),
    (&[0xd4, 0x50], AtOnce),
    // ADDL3 R1,R2,R3; BICL2 #3,R1; XORL2 R1,R2; MULL2 R1,R2; DIVL2 R1,R2; ASHL #2,R1,R2
    (&[0xc1, 0x51, 0x52, 0x53], AtOnce),
    (&[0xca, 0x03, 0x51], AtOnce),
    (&[0xcc, 0x51, 0x52], AtOnce),
    (&[0xc4, 0x51, 0x52], AtOnce),
    (&[0xc6, 0x51, 0x52], AtOnce),
    (&[0x78, 0x02, 0x51, 0x52], AtOnce),
    // CMPL R1,#3; TSTL R1; BITL #3,R1; MOVZBL R1,R2; ADWC R1,R2
    (&[0xd1, 0x51, 0x03], AtOnce),
    (&[0xd5, 0x51], AtOnce),
    (&[0xd3, 0x03, 0x51], AtOnce),
    (&[0x9a, 0x51, 0x52], AtOnce),
    (&[0xd8, 0x51, 0x52], AtOnce),
    // MOVAL 4(R1),R2; MOVAB 100(PC),R2; MOVAQ @#1000,R2; JMP 100(PC)
    (&[0xde, 0xa1, 0x04, 0x52], AtOnce),
    (&[0x9e, 0xcf, 0x00, 0x01, 0x52], AtOnce),
    (&[0x7e, 0x9f, 0x00, 0x10, 0x00, 0x00, 0x52], AtOnce),
    (&[0x17, 0xcf, 0x00, 0x01], AtOnce),
    // MOVL (R1),R0; MOVL R0,(R1); MOVL (R1),(R2); ADDL2 R0,4(R1); ADDL3 (R1),R2,R3
    (&[0xd0, 0x61, 0x50], InMemory),
    (&[0xd0, 0x50, 0x61], InMemory),
    (&[0xd0, 0x61, 0x62], InMemory),
    (&[0xc0, 0x50, 0xa1, 0x04], InMemory),
    (&[0xc1, 0x61, 0x52, 0x53], InMemory),
    // MOVB (R1)+,(R2)+; MOVL -(R1),R0; CMPB (R1),#3; INCW (R1)
    (&[0x90, 0x81, 0x82], InMemory),
    (&[0xd0, 0x71, 0x50], InMemory),
    (&[0x91, 0x61, 0x03], InMemory),
    (&[0xb6, 0x61], InMemory),
    // PUSHL R0; PUSHL (R1); PUSHAL 4(R1)
    (&[0xdd, 0x50], InMemory),
    (&[0xdd, 0x61], InMemory),
    (&[0xdf, 0xa1, 0x04], InMemory),
    // CLRQ R2; CLRQ (R1); MOVQ R2,R4; MOVQ (R1),R2; MOVQ R2,(R1); MOVQ (R1)+,(R2)+; MOVQ #5,R2
    (&[0x7c, 0x52], Quad),
    (&[0x7c, 0x61], Quad),
    (&[0x7d, 0x52, 0x54], Quad),
    (&[0x7d, 0x61, 0x52], Quad),
    (&[0x7d, 0x52, 0x61], Quad),
    (&[0x7d, 0x81, 0x82], Quad),
    (&[0x7d, 0x05, 0x52], Quad),
    // MOVPSL R0; PROBER #0,#4,(R1); PROBEW R0,R2,4(R1); BSBB; BSBW; RSB
    (&[0xdc, 0x50], Status),
    (&[0x0c, 0x00, 0x04, 0x61], Probe),
    (&[0x0d, 0x50, 0x52, 0xa1, 0x04], Probe),
    (&[0x10, 0x05], Call),
    (&[0x30, 0x05, 0x00], Call),
    (&[0x05], Return),
    // BBS R2,4(R1); BBC #3,(R1)
    (&[0xe0, 0x52, 0xa1, 0x04, 0x05], Bit),
    (&[0xe1, 0x03, 0x61, 0x05], Bit),
    // ADDL2 R0,4(R1)[R2]; MOVL 4(R1)[R2],R0; MOVB R0,(R1)[R2]
    (&[0xc0, 0x50, 0x42, 0xa1, 0x04], Indexed),
    (&[0xd0, 0x42, 0xa1, 0x04, 0x50], Indexed),
    (&[0x90, 0x50, 0x42, 0x61], Indexed),
    // MOVL 100(PC),R0; MOVL @#1000,R0; MOVL @4(R1),R0; MOVL @(R1)+,R0; MOVL (R3),4(R1)[R2]
    (&[0xd0, 0xcf, 0x00, 0x01, 0x50], ByPlan),
    (&[0xd0, 0x9f, 0x00, 0x10, 0x00, 0x00, 0x50], ByPlan),
    (&[0xd0, 0xb1, 0x04, 0x50], ByPlan),
    (&[0xd0, 0x91, 0x50], ByPlan),
    (&[0xd0, 0x63, 0x42, 0xa1, 0x04], ByPlan),
    // MOVPSL (R1); PROBER (R2),#4,(R1); CVTWL R1,R2; BBSS #3,R1; AOBLSS #5,R0
    (&[0xdc, 0x61], ByPlan),
    (&[0x0c, 0x62, 0x04, 0x61], ByPlan),
    (&[0x32, 0x51, 0x52], ByPlan),
    (&[0xe2, 0x03, 0x51, 0x05], ByPlan),
    (&[0xf2, 0x05, 0x50, 0xfa], ByPlan),
    // JSB (R1); JMP (R1); CALLS #0,(R1); PUSHR #0F
    (&[0x16, 0x61], ByPlan),
    (&[0x17, 0x61], ByPlan),
    (&[0xfb, 0x00, 0x61], ByPlan),
    (&[0xbb, 0x0f], ByPlan),
];

#[test]
fn each_instruction_is_done_by_its_form(rt: HostRuntime) {
    for (number, (code, want)) in FORMS.iter().enumerate() {
        assert!(rt; form_at(code) == Some(*want), "row {number}");
    }
}
