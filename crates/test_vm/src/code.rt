//! Instructions at random, each at a place that is a multiple of 16.

use crate::draw::{Draw, FIRST_FAR, TABLES, entry};
use crate::forms::{FORMS, WRITES};

/// The number of bytes of code.
const SIZE: usize = 0x800;

/// Code, one instruction after the other.
#[derive(Drop)]
pub struct Code {
    bytes: [u8; 0x800],
    len: usize,
}

impl Code {
    /// No code.
    pub fn new() -> Code {
        Code {
            bytes: [1; 0x800],
            len: 0,
        }
    }

    pub fn bytes(&self) -> &[u8] {
        &self.bytes
    }

    /// The first bytes, at most `count`.
    pub fn first(&self, count: usize) -> &[u8] {
        self.bytes.get(..count).unwrap_or(&self.bytes)
    }

    /// One byte more, where there is room.
    pub fn push(&mut self, byte: u8) {
        if self.len < SIZE {
            self.bytes[self.len] = byte;
            self.len += 1;
        }
    }

    pub fn push_long(&mut self, v: u32) {
        for byte in v.to_le_bytes() {
            self.push(byte);
        }
    }

    /// A longword as an immediate.
    fn push_immediate_long(&mut self, v: u32) {
        self.push(0x8F);
        self.push_long(v);
    }

    /// Bytes, and an absolute address after them.
    fn push_absolute(&mut self, front: &[u8], address: u32) {
        for byte in front {
            self.push(*byte);
        }
        self.push(0x9F);
        self.push_long(address);
    }

    /// A branch displacement to the place of one of the six instructions before this one, of this, or of one of the seven
    /// after it.
    fn push_displacement(&mut self, draw: &mut Draw) {
        let later = (self.len % 16) as u32 + 1;
        let far = 0x100 - 96 + 16 * draw.below(14);
        self.push((far.wrapping_sub(later) % 0x100) as u8);
    }

    /// An immediate of a size.
    fn push_immediate(&mut self, draw: &mut Draw, size: u8) {
        self.push(0x8F);
        let v = draw.address().to_le_bytes();
        for k in 0..size {
            self.push(v[usize::from(k % 4)]);
        }
    }

    /// An operand of a size. R0 to R7 are for addresses, R8 to R11 for numbers.
    fn push_operand(&mut self, draw: &mut Draw, size: u8) {
        let pointer = (draw.below(8) % 8) as u8;
        match draw.below(18) {
            0 | 1 => self.push(draw.byte() % 0x40),
            2 | 3 | 4 => self.push(0x58 + pointer % 4),
            5 | 6 | 7 => self.push(0x60 + pointer),
            8 => self.push(0x70 + pointer),
            9 => self.push(0x80 + pointer),
            10 => self.push(0x90 + pointer),
            11 => {
                self.push(0xA0 + pointer);
                self.push(draw.byte());
            }
            12 => {
                self.push(0x48 + pointer % 4);
                self.push(0x60 + pointer);
            }
            13 => self.push(0x6E),
            14 => self.push_immediate(draw, size),
            _ => {
                self.push(0x9F);
                self.push_long(draw.address());
            }
        }
    }

    fn push_operands(&mut self, draw: &mut Draw, sizes: &[u8]) {
        for size in sizes {
            if *size == 0 {
                self.push_displacement(draw);
            } else {
                self.push_operand(draw, *size);
            }
        }
    }

    /// MOVL of an address to one of R0 to R7.
    fn push_pointer(&mut self, draw: &mut Draw) {
        self.push(0xD0);
        self.push_immediate_long(draw.address());
        self.push(0x50 + (draw.below(8) % 8) as u8);
    }

    /// MOVL of an entry to its place, or XORL2 of its modify bit, its valid bit or a bit of its frame; in S, or at the same
    /// address in P0.
    fn push_change(&mut self, draw: &mut Draw) {
        let page = draw.page();
        if draw.one_of(2) {
            self.push(0xD0);
            self.push_immediate_long(entry(draw, page));
        } else {
            self.push(0xCC);
            let bit = [0x0400_0000, 0x0400_0000, 0x8000_0000, 1][(draw.below(4) % 4) as usize];
            self.push_immediate_long(bit);
        }
        self.push_absolute(&[], draw.table_address().wrapping_add(4 * (page % 128)));
    }

    /// TSTL of a longword of data, and for some BISL2 of 0 over the end of a table; XORL2 of a bit of its page's frame in
    /// that table, and INCL of the longword.
    fn push_touches(&mut self, draw: &mut Draw) {
        let page = draw.touched_page();
        let (space, table) = draw.space_and_table();
        let va = space.wrapping_add(512 * page + draw.below(508));
        self.push_absolute(&[0xD5], va);
        if draw.one_of(2) {
            self.push_absolute(&[0xC8, 0x00], table.wrapping_add(0x1FE));
        }
        self.end_instruction();
        self.push_absolute(&[0xCC, 0x01], table.wrapping_add(4 * page));
        self.push_absolute(&[0xD6], va);
    }

    /// TSTL of a longword in a far page, and MTPR to PCBB of the place of the far pages' entries in its table; two PUSHL, SVPCTX,
    /// which writes over these entries, and INCL of the longword.
    fn push_block(&mut self, draw: &mut Draw) {
        let (space, table) = draw.space_and_table();
        let va = space.wrapping_add(512 * (FIRST_FAR + draw.below(4)) + draw.below(508));
        self.push_absolute(&[0xD5], va);
        self.push(0xDA);
        self.push_immediate_long(table % 0x8000 + 4 * FIRST_FAR);
        self.push(0x10);
        self.end_instruction();
        for byte in [0xDD, 0x00, 0xDD, 0x00, 0x07] {
            self.push(byte);
        }
        self.push_absolute(&[0xD6], va);
    }

    /// TSTL of a longword of data, and MTPR of a table of P0; MTPR of a table of P1, and TSTL of another.
    fn push_turn(&mut self, draw: &mut Draw) {
        self.push_absolute(&[0xD5], draw.data());
        self.push_table(draw);
        self.end_instruction();
        self.push(0xDA);
        self.push_immediate_long(0x7F80_4310 + 4 * draw.below(4));
        self.push(0x0A);
        self.push_absolute(&[0xD5], draw.data());
    }

    /// MTPR of a value that is mostly allowed.
    fn push_write(&mut self, draw: &mut Draw) {
        let (number, first, range) = WRITES[(draw.below(24) % 24) as usize];
        self.push(0xDA);
        let more = draw.number().checked_rem(range).unwrap_or(0);
        self.push_immediate_long(first.wrapping_add(more));
        self.push_immediate_long(u32::from(number));
    }

    /// MFPR of a register.
    fn push_read(&mut self, draw: &mut Draw) {
        self.push(0xDB);
        self.push(draw.byte() % 0x40);
        self.push_operand(draw, 4);
    }

    /// BISPSW of the bit by which an overflow traps, and CVTLB of a number that is mostly too great.
    fn push_overflow(&mut self, draw: &mut Draw) {
        for byte in [0xB8, 0x20, 0xF6] {
            self.push(byte);
        }
        self.push_immediate_long(draw.address());
        self.push(0x58);
    }

    /// PUSHL of a status longword and of the place of an instruction.
    fn push_pushes(&mut self, draw: &mut Draw) {
        self.push(0xDD);
        self.push_immediate_long(draw.status());
        self.push(0xDD);
        self.push_immediate_long(16 * draw.below(128));
    }

    /// MTPR of a block's address to PCBB, LDPCTX, REI.
    fn push_load(&mut self, draw: &mut Draw) {
        self.push(0xDA);
        self.push_immediate_long(0x5000 + 0x80 * draw.below(8));
        self.push(0x10);
        self.push(0x06);
        self.push(0x02);
    }

    /// CHMK, which goes on with another context, or a CHM of another mode.
    fn push_call(&mut self, draw: &mut Draw) {
        let to = if draw.one_of(2) { 0 } else { draw.below(4) };
        self.push(0xBC + (to % 4) as u8);
        self.push(draw.byte() % 0x40);
    }

    /// A context that is saved and loaded again: SVPCTX, LDPCTX, REI.
    fn push_save(&mut self, draw: &mut Draw) {
        self.push_pushes(draw);
        self.push(0x07);
        self.push(0x06);
        self.push(0x02);
    }

    /// REI to a place and a mode.
    fn push_return(&mut self, draw: &mut Draw) {
        self.push_pushes(draw);
        self.push(0x02);
    }

    /// MTPR of another table of P0.
    fn push_table(&mut self, draw: &mut Draw) {
        let table = TABLES[(1 + draw.below(3) % 3) as usize];
        self.push(0xDA);
        self.push_immediate_long(table.wrapping_add(0x8000_0000));
        self.push(0x08);
    }

    /// To another mode, context or table; or WAIT.
    fn push_switch(&mut self, draw: &mut Draw) {
        match draw.below(32) {
            0..10 => self.push_call(draw),
            10..18 => self.push_load(draw),
            18..23 => self.push_save(draw),
            23..28 => self.push_return(draw),
            28 => {
                self.push(0xFD);
                self.push(0x01);
            }
            _ => self.push_table(draw),
        }
    }

    /// Goes to the next place that is a multiple of 16.
    fn end_instruction(&mut self) {
        let rest = ((16 - self.len % 16) % 16) as u8;
        if rest >= 2 {
            self.push(0x11);
            self.push(rest - 2);
        }
        for _ in 0..16 {
            if self.len % 16 != 0 {
                self.push(1);
            }
        }
    }

    /// An instruction.
    fn push_instruction(&mut self, draw: &mut Draw) {
        match draw.below(18) {
            0 | 1 => self.push_pointer(draw),
            2 | 3 => self.push_change(draw),
            4 => self.push_write(draw),
            5 if draw.one_of(2) => self.push_overflow(draw),
            5 => self.push_read(draw),
            6 | 7 => self.push_switch(draw),
            8 | 9 if self.len % 32 == 0 => self.push_touches(draw),
            10 if self.len % 32 == 0 && draw.one_of(3) => self.push_block(draw),
            10 | 11 if self.len % 32 == 0 => self.push_turn(draw),
            _ => {
                let (opcode, sizes) = FORMS[(draw.below(64) % 64) as usize];
                self.push(opcode);
                self.push_operands(draw, sizes);
            }
        }
        self.end_instruction();
    }

    /// Code of 2,048 bytes; that at 200 goes to 900.
    pub fn drawn(draw: &mut Draw) -> Code {
        let mut code = Code::new();
        for _ in 0..128 {
            if code.len == 0x200 {
                code.push(0x31);
                code.push(0xFD);
                code.push(0x06);
                code.end_instruction();
            } else {
                code.push_instruction(draw);
            }
        }
        code
    }
}
