use crate::forms::{Access, Form};
use vv_base::Width;

/// What the table says of an opcode, as plain values: nothing, or the instruction's operands.
#[derive(Clone, Copy)]
pub enum PackedRow {
    Unknown,
    None,
    One(Form),
    Two(Form, Form),
    Three(Form, Form, Form),
    Four(Form, Form, Form, Form),
}

// An operand is written as in the manual: a letter for the access, then one for the width.

const AB: Form = Form {
    access: Access::Address,
    width: Width::Byte,
};

const AW: Form = Form {
    access: Access::Address,
    width: Width::Word,
};

const AL: Form = Form {
    access: Access::Address,
    width: Width::Long,
};

const AQ: Form = Form {
    access: Access::Address,
    width: Width::Quad,
};

const BB: Form = Form {
    access: Access::Branch,
    width: Width::Byte,
};

const BW: Form = Form {
    access: Access::Branch,
    width: Width::Word,
};

const MB: Form = Form {
    access: Access::Modify,
    width: Width::Byte,
};

const MW: Form = Form {
    access: Access::Modify,
    width: Width::Word,
};

const ML: Form = Form {
    access: Access::Modify,
    width: Width::Long,
};

const RB: Form = Form {
    access: Access::Read,
    width: Width::Byte,
};

const RW: Form = Form {
    access: Access::Read,
    width: Width::Word,
};

const RL: Form = Form {
    access: Access::Read,
    width: Width::Long,
};

const RQ: Form = Form {
    access: Access::Read,
    width: Width::Quad,
};

const VB: Form = Form {
    access: Access::Bits,
    width: Width::Byte,
};

const WB: Form = Form {
    access: Access::Write,
    width: Width::Byte,
};

const WW: Form = Form {
    access: Access::Write,
    width: Width::Word,
};

const WL: Form = Form {
    access: Access::Write,
    width: Width::Long,
};

const WQ: Form = Form {
    access: Access::Write,
    width: Width::Quad,
};

/// The rows of the table, by opcode.
pub static PACKED_ROWS: [PackedRow; 256] = [
    PackedRow::None, // 00 HALT
    PackedRow::None, // 01 NOP
    PackedRow::None, // 02 REI
    PackedRow::None, // 03 BPT
    PackedRow::None, // 04 RET
    PackedRow::None, // 05 RSB
    PackedRow::None, // 06 LDPCTX
    PackedRow::None, // 07 SVPCTX
    PackedRow::Unknown, // 08
    PackedRow::Unknown, // 09
    PackedRow::Unknown, // 0A
    PackedRow::Unknown, // 0B
    PackedRow::Three(RB, RW, AB), // 0C PROBER
    PackedRow::Three(RB, RW, AB), // 0D PROBEW
    PackedRow::Unknown, // 0E
    PackedRow::Unknown, // 0F
    PackedRow::One(BB), // 10 BSBB
    PackedRow::One(BB), // 11 BRB
    PackedRow::One(BB), // 12 BNEQ
    PackedRow::One(BB), // 13 BEQL
    PackedRow::One(BB), // 14 BGTR
    PackedRow::One(BB), // 15 BLEQ
    PackedRow::One(AB), // 16 JSB
    PackedRow::One(AB), // 17 JMP
    PackedRow::One(BB), // 18 BGEQ
    PackedRow::One(BB), // 19 BLSS
    PackedRow::One(BB), // 1A BGTRU
    PackedRow::One(BB), // 1B BLEQU
    PackedRow::One(BB), // 1C BVC
    PackedRow::One(BB), // 1D BVS
    PackedRow::One(BB), // 1E BCC
    PackedRow::One(BB), // 1F BCS
    PackedRow::Unknown, // 20
    PackedRow::Unknown, // 21
    PackedRow::Unknown, // 22
    PackedRow::Unknown, // 23
    PackedRow::Unknown, // 24
    PackedRow::Unknown, // 25
    PackedRow::Unknown, // 26
    PackedRow::Unknown, // 27
    PackedRow::Unknown, // 28
    PackedRow::Unknown, // 29
    PackedRow::Unknown, // 2A
    PackedRow::Unknown, // 2B
    PackedRow::Unknown, // 2C
    PackedRow::Unknown, // 2D
    PackedRow::Unknown, // 2E
    PackedRow::Unknown, // 2F
    PackedRow::One(BW), // 30 BSBW
    PackedRow::One(BW), // 31 BRW
    PackedRow::Two(RW, WL), // 32 CVTWL
    PackedRow::Two(RW, WB), // 33 CVTWB
    PackedRow::Unknown, // 34
    PackedRow::Unknown, // 35
    PackedRow::Unknown, // 36
    PackedRow::Unknown, // 37
    PackedRow::Unknown, // 38
    PackedRow::Unknown, // 39
    PackedRow::Unknown, // 3A
    PackedRow::Unknown, // 3B
    PackedRow::Two(RW, WL), // 3C MOVZWL
    PackedRow::Four(RW, RW, MW, BW), // 3D ACBW
    PackedRow::Two(AW, WL), // 3E MOVAW
    PackedRow::One(AW), // 3F PUSHAW
    PackedRow::Unknown, // 40
    PackedRow::Unknown, // 41
    PackedRow::Unknown, // 42
    PackedRow::Unknown, // 43
    PackedRow::Unknown, // 44
    PackedRow::Unknown, // 45
    PackedRow::Unknown, // 46
    PackedRow::Unknown, // 47
    PackedRow::Unknown, // 48
    PackedRow::Unknown, // 49
    PackedRow::Unknown, // 4A
    PackedRow::Unknown, // 4B
    PackedRow::Unknown, // 4C
    PackedRow::Unknown, // 4D
    PackedRow::Unknown, // 4E
    PackedRow::Unknown, // 4F
    PackedRow::Unknown, // 50
    PackedRow::Unknown, // 51
    PackedRow::Unknown, // 52
    PackedRow::Unknown, // 53
    PackedRow::Unknown, // 54
    PackedRow::Unknown, // 55
    PackedRow::Unknown, // 56
    PackedRow::Unknown, // 57
    PackedRow::Unknown, // 58
    PackedRow::Unknown, // 59
    PackedRow::Unknown, // 5A
    PackedRow::Unknown, // 5B
    PackedRow::Unknown, // 5C
    PackedRow::Unknown, // 5D
    PackedRow::Unknown, // 5E
    PackedRow::Unknown, // 5F
    PackedRow::Unknown, // 60
    PackedRow::Unknown, // 61
    PackedRow::Unknown, // 62
    PackedRow::Unknown, // 63
    PackedRow::Unknown, // 64
    PackedRow::Unknown, // 65
    PackedRow::Unknown, // 66
    PackedRow::Unknown, // 67
    PackedRow::Unknown, // 68
    PackedRow::Unknown, // 69
    PackedRow::Unknown, // 6A
    PackedRow::Unknown, // 6B
    PackedRow::Unknown, // 6C
    PackedRow::Unknown, // 6D
    PackedRow::Unknown, // 6E
    PackedRow::Unknown, // 6F
    PackedRow::Unknown, // 70
    PackedRow::Unknown, // 71
    PackedRow::Unknown, // 72
    PackedRow::Unknown, // 73
    PackedRow::Unknown, // 74
    PackedRow::Unknown, // 75
    PackedRow::Unknown, // 76
    PackedRow::Unknown, // 77
    PackedRow::Three(RB, RL, WL), // 78 ASHL
    PackedRow::Unknown, // 79
    PackedRow::Unknown, // 7A
    PackedRow::Unknown, // 7B
    PackedRow::One(WQ), // 7C CLRQ
    PackedRow::Two(RQ, WQ), // 7D MOVQ
    PackedRow::Two(AQ, WL), // 7E MOVAQ
    PackedRow::One(AQ), // 7F PUSHAQ
    PackedRow::Two(RB, MB), // 80 ADDB2
    PackedRow::Three(RB, RB, WB), // 81 ADDB3
    PackedRow::Two(RB, MB), // 82 SUBB2
    PackedRow::Three(RB, RB, WB), // 83 SUBB3
    PackedRow::Two(RB, MB), // 84 MULB2
    PackedRow::Three(RB, RB, WB), // 85 MULB3
    PackedRow::Two(RB, MB), // 86 DIVB2
    PackedRow::Three(RB, RB, WB), // 87 DIVB3
    PackedRow::Two(RB, MB), // 88 BISB2
    PackedRow::Three(RB, RB, WB), // 89 BISB3
    PackedRow::Two(RB, MB), // 8A BICB2
    PackedRow::Three(RB, RB, WB), // 8B BICB3
    PackedRow::Two(RB, MB), // 8C XORB2
    PackedRow::Three(RB, RB, WB), // 8D XORB3
    PackedRow::Two(RB, WB), // 8E MNEGB
    PackedRow::Three(RB, RB, RB), // 8F CASEB
    PackedRow::Two(RB, WB), // 90 MOVB
    PackedRow::Two(RB, RB), // 91 CMPB
    PackedRow::Two(RB, WB), // 92 MCOMB
    PackedRow::Two(RB, RB), // 93 BITB
    PackedRow::One(WB), // 94 CLRB
    PackedRow::One(RB), // 95 TSTB
    PackedRow::One(MB), // 96 INCB
    PackedRow::One(MB), // 97 DECB
    PackedRow::Two(RB, WL), // 98 CVTBL
    PackedRow::Two(RB, WW), // 99 CVTBW
    PackedRow::Two(RB, WL), // 9A MOVZBL
    PackedRow::Two(RB, WW), // 9B MOVZBW
    PackedRow::Three(RB, RL, WL), // 9C ROTL
    PackedRow::Four(RB, RB, MB, BW), // 9D ACBB
    PackedRow::Two(AB, WL), // 9E MOVAB
    PackedRow::One(AB), // 9F PUSHAB
    PackedRow::Two(RW, MW), // A0 ADDW2
    PackedRow::Three(RW, RW, WW), // A1 ADDW3
    PackedRow::Two(RW, MW), // A2 SUBW2
    PackedRow::Three(RW, RW, WW), // A3 SUBW3
    PackedRow::Two(RW, MW), // A4 MULW2
    PackedRow::Three(RW, RW, WW), // A5 MULW3
    PackedRow::Two(RW, MW), // A6 DIVW2
    PackedRow::Three(RW, RW, WW), // A7 DIVW3
    PackedRow::Two(RW, MW), // A8 BISW2
    PackedRow::Three(RW, RW, WW), // A9 BISW3
    PackedRow::Two(RW, MW), // AA BICW2
    PackedRow::Three(RW, RW, WW), // AB BICW3
    PackedRow::Two(RW, MW), // AC XORW2
    PackedRow::Three(RW, RW, WW), // AD XORW3
    PackedRow::Two(RW, WW), // AE MNEGW
    PackedRow::Three(RW, RW, RW), // AF CASEW
    PackedRow::Two(RW, WW), // B0 MOVW
    PackedRow::Two(RW, RW), // B1 CMPW
    PackedRow::Two(RW, WW), // B2 MCOMW
    PackedRow::Two(RW, RW), // B3 BITW
    PackedRow::One(WW), // B4 CLRW
    PackedRow::One(RW), // B5 TSTW
    PackedRow::One(MW), // B6 INCW
    PackedRow::One(MW), // B7 DECW
    PackedRow::One(RW), // B8 BISPSW
    PackedRow::One(RW), // B9 BICPSW
    PackedRow::One(RW), // BA POPR
    PackedRow::One(RW), // BB PUSHR
    PackedRow::One(RW), // BC CHMK
    PackedRow::One(RW), // BD CHME
    PackedRow::One(RW), // BE CHMS
    PackedRow::One(RW), // BF CHMU
    PackedRow::Two(RL, ML), // C0 ADDL2
    PackedRow::Three(RL, RL, WL), // C1 ADDL3
    PackedRow::Two(RL, ML), // C2 SUBL2
    PackedRow::Three(RL, RL, WL), // C3 SUBL3
    PackedRow::Two(RL, ML), // C4 MULL2
    PackedRow::Three(RL, RL, WL), // C5 MULL3
    PackedRow::Two(RL, ML), // C6 DIVL2
    PackedRow::Three(RL, RL, WL), // C7 DIVL3
    PackedRow::Two(RL, ML), // C8 BISL2
    PackedRow::Three(RL, RL, WL), // C9 BISL3
    PackedRow::Two(RL, ML), // CA BICL2
    PackedRow::Three(RL, RL, WL), // CB BICL3
    PackedRow::Two(RL, ML), // CC XORL2
    PackedRow::Three(RL, RL, WL), // CD XORL3
    PackedRow::Two(RL, WL), // CE MNEGL
    PackedRow::Three(RL, RL, RL), // CF CASEL
    PackedRow::Two(RL, WL), // D0 MOVL
    PackedRow::Two(RL, RL), // D1 CMPL
    PackedRow::Two(RL, WL), // D2 MCOML
    PackedRow::Two(RL, RL), // D3 BITL
    PackedRow::One(WL), // D4 CLRL
    PackedRow::One(RL), // D5 TSTL
    PackedRow::One(ML), // D6 INCL
    PackedRow::One(ML), // D7 DECL
    PackedRow::Two(RL, ML), // D8 ADWC
    PackedRow::Two(RL, ML), // D9 SBWC
    PackedRow::Two(RL, RL), // DA MTPR
    PackedRow::Two(RL, WL), // DB MFPR
    PackedRow::One(WL), // DC MOVPSL
    PackedRow::One(RL), // DD PUSHL
    PackedRow::Two(AL, WL), // DE MOVAL
    PackedRow::One(AL), // DF PUSHAL
    PackedRow::Three(RL, VB, BB), // E0 BBS
    PackedRow::Three(RL, VB, BB), // E1 BBC
    PackedRow::Three(RL, VB, BB), // E2 BBSS
    PackedRow::Three(RL, VB, BB), // E3 BBCS
    PackedRow::Three(RL, VB, BB), // E4 BBSC
    PackedRow::Three(RL, VB, BB), // E5 BBCC
    PackedRow::Three(RL, VB, BB), // E6 BBSSI
    PackedRow::Three(RL, VB, BB), // E7 BBCCI
    PackedRow::Two(RL, BB), // E8 BLBS
    PackedRow::Two(RL, BB), // E9 BLBC
    PackedRow::Unknown, // EA
    PackedRow::Unknown, // EB
    PackedRow::Unknown, // EC
    PackedRow::Unknown, // ED
    PackedRow::Unknown, // EE
    PackedRow::Unknown, // EF
    PackedRow::Unknown, // F0
    PackedRow::Four(RL, RL, ML, BW), // F1 ACBL
    PackedRow::Three(RL, ML, BB), // F2 AOBLSS
    PackedRow::Three(RL, ML, BB), // F3 AOBLEQ
    PackedRow::Two(ML, BB), // F4 SOBGEQ
    PackedRow::Two(ML, BB), // F5 SOBGTR
    PackedRow::Two(RL, WB), // F6 CVTLB
    PackedRow::Two(RL, WW), // F7 CVTLW
    PackedRow::Unknown, // F8
    PackedRow::Unknown, // F9
    PackedRow::Two(AB, AB), // FA CALLG
    PackedRow::Two(RL, AB), // FB CALLS
    PackedRow::None, // FC XFC
    PackedRow::None, // FD WAIT
    PackedRow::Unknown, // FE
    PackedRow::Unknown, // FF
];
