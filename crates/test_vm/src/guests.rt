//! Guests that are drawn.

ghost use Rattle.std.specs.Prelude.{◌<◌, IfOk};
ghost use Rattle.vm_guest.specs.Kept.{IsShadowedIn};

use crate::code::Code;
use crate::draw::{Draw, TABLES, entry, is_data};
use std::alloc::Global;
use test_vm_stage::Place::{Iccs, Long, Nicr, P0lr, P1br, P1lr, Pcbb, Psl, R, Slr, Stack};
use test_vm_stage::{Place, Stage};
use vm_state::GuestState;
use vv_base::NoMemory;

/// After the code: BRW to its begin.
static BACK: [u8; 3] = [0x31, 0xFD, 0xF7];

/// What a guest executes from its start on.
static BEGIN: [u8; 68] = [
    0xDA, 0x8F, 0x00, 0x40, 0x00, 0x00, 0x0C, // 900 MTPR #4000, #SBR
    0xDA, 0x8F, 0x60, 0x00, 0x00, 0x00, 0x0D, // 907 MTPR #60, #SLR
    0xDA, 0x8F, 0x00, 0x42, 0x00, 0x80, 0x08, // 90E MTPR #80004200, #P0BR
    0xDA, 0x8F, 0x80, 0x00, 0x00, 0x00, 0x09, // 915 MTPR #80, #P0LR
    0xDA, 0x8F, 0x00, 0x44, 0x00, 0x00, 0x11, // 91C MTPR #4400, #SCBB
    0xDA, 0x01, 0x38, // 923 MTPR #1, #MAPEN
    0xD0, 0x8F, 0x00, 0x38, 0x00, 0x80, 0x5E, // 926 MOVL #80003800, SP
    0xDA, 0x8F, 0xD0, 0xFF, 0xFF, 0xFF, 0x19, // 92D MTPR #FFFFFFD0, #NICR
    0xDA, 0x8F, 0x51, 0x00, 0x00, 0x00, 0x18, // 934 MTPR #51, #ICCS
    0xDA, 0x8F, 0x00, 0x50, 0x00, 0x00, 0x10, // 93B MTPR #5000, #PCBB
    0x06, // 942 LDPCTX
    0x02, // 943 REI
];

/// The handlers, in the page at 80001000. First those of an interrupt; of a fault, which goes on at the next multiple of 16 in
/// the code, and of one with two parameters; of what has one parameter; of a kernel stack that isn't valid. Then those of the
/// clock and of CHMK, which go on with the next of eight contexts; of software level 2, which sets ASTLVL to 4; of a modify
/// fault; and of an arithmetic trap.
static HANDLERS: [u8; 86] = [
    0x02, 0x01, 0x01, 0x01, // 1000 REI
    0xC0, 0x10, 0x6E, // 1004 ADDL2 #10, (SP)
    0xCA, 0x8F, 0x0F, 0xF8, 0xFF, 0xFF, 0x6E, // 1007 BICL2 #FFFFF80F, (SP)
    0x02, 0x01, // 100E REI
    0xC0, 0x08, 0x5E, // 1010 ADDL2 #8, SP
    0x11, 0xEF, 0x01, 0x01, 0x01, // 1013 BRB 1004
    0xD5, 0x8E, // 1018 TSTL (SP)+
    0x02, 0x01, // 101A REI
    0xDA, 0x8F, 0x00, 0x30, 0x00, 0x80, 0x00, // 101C MTPR #80003000, #KSP
    0x11, 0xDF, 0x01, 0x01, 0x01, // 1023 BRB 1004
    0x07, // 1028 SVPCTX
    0xDA, 0x9F, 0x80, 0x11, 0x00, 0x80, 0x10, // 1029 MTPR @#80001180, #PCBB
    0xC0, 0x8F, 0x80, 0x00, 0x00, 0x00, 0x9F, 0x80, 0x11, 0x00, 0x80, // 1030 ADDL2 #80, @#80001180
    0xCA, 0x8F, 0x00, 0x04, 0x00, 0x00, 0x9F, 0x80, 0x11, 0x00, 0x80, // 103B BICL2 #400, @#80001180
    0x06, // 1046 LDPCTX
    0x02, // 1047 REI
    0xD5, 0x8E, // 1048 TSTL (SP)+
    0x11, 0xDC, // 104A BRB 1028
    0xDA, 0x04, 0x13, // 104C MTPR #4, #ASTLVL
    0x02, // 104F REI
    0x11, 0xBE, 0x01, 0x01, // 1050 BRB 1010
    0x11, 0xC2, // 1054 BRB 1018
];

/// The vectors, the context that is next, and registers.
static FIXED: [(Place, u32); 29] = [
    (Long(0x1180), 0x5080),
    (Long(0x4408), 0x8000_101D),
    (Long(0x4410), 0x8000_1004),
    (Long(0x4414), 0x8000_1004),
    (Long(0x4418), 0x8000_1004),
    (Long(0x441C), 0x8000_1004),
    (Long(0x4420), 0x8000_1010),
    (Long(0x4424), 0x8000_1010),
    (Long(0x442C), 0x8000_1004),
    (Long(0x4434), 0x8000_1054),
    (Long(0x443C), 0x8000_1050),
    (Long(0x4440), 0x8000_1048),
    (Long(0x4444), 0x8000_1018),
    (Long(0x4448), 0x8000_1018),
    (Long(0x444C), 0x8000_1018),
    (Long(0x4488), 0x8000_104D),
    (Long(0x4490), 0x8000_1001),
    (Long(0x44C0), 0x8000_1028),
    (Pcbb, 0x5000),
    (Slr, 0x60),
    (P0lr, 0x80),
    (P1br, 0x7F80_4320),
    (P1lr, 0x1F_FFF8),
    (Stack(1), 0x2600),
    (Stack(2), 0x2800),
    (Stack(3), 0x2A00),
    (Stack(4), 0x8000_3800),
    (Nicr, 0xFFFF_FFD0),
    (Iccs, 0x51),
];

/// The pages after two tables of P0, which in some tables can't be written.
static LATER: [u32; 2] = [34, 37];

/// What an entry of a table becomes, if anything: those of data are mostly drawn; those of code, handlers, stacks and tables
/// mostly stay, of some the modify bit is clear.
fn drawn_entry(draw: &mut Draw, page: u32) -> Option<u32> {
    if is_data(page) && !draw.one_of(4) || draw.one_of(80) {
        Some(entry(draw, page))
    } else if LATER.contains(&page) && draw.one_of(2) {
        Some(0xF800_0000 + page % 64)
    } else if draw.one_of(4) {
        Some(0xA000_0000 + page % 64)
    } else {
        None
    }
}

/// The entries of a table of 64.
fn draw_table(stage: &mut Stage, draw: &mut Draw, table: u32)
    requires { IsShadowedIn stage.old.machine.memory stage.old.guest }
    ensures { IsShadowedIn stage.new.machine.memory stage.new.guest }
{
    let _ = stage.put_rising(table, 64, 0xA400_0000, 1);
    for page in 0..96 {
        if let Some(drawn) = drawn_entry(draw, page) {
            let _ = stage.put(table.wrapping_add(4 * page), &drawn.to_le_bytes());
        }
    }
}

/// All tables, and that of P1.
fn draw_tables(stage: &mut Stage, draw: &mut Draw)
    requires { IsShadowedIn stage.old.machine.memory stage.old.guest }
    ensures { IsShadowedIn stage.new.machine.memory stage.new.guest }
{
    for table in &TABLES {
        draw_table(stage, draw, *table);
    }
    let _ = stage.put_rising(0x4300, 8, 0xA000_002C, 1);
}

/// Puts numbers that are drawn into longwords of data.
fn draw_data(stage: &mut Stage, draw: &mut Draw)
    requires { IsShadowedIn stage.old.machine.memory stage.old.guest }
    ensures { IsShadowedIn stage.new.machine.memory stage.new.guest }
{
    for _ in 0..600 {
        let at = draw.data();
        let v = draw.address();
        let _ = stage.put(at, &v.to_le_bytes());
    }
}

/// A context: stack pointers, of which two are in tables; numbers in its registers; the place of an instruction and a mode;
/// and one of three tables, with one of two lengths.
fn block(draw: &mut Draw, number: u32) -> Code
    requires { number < 8 }
{
    let mut block = Code::new();
    let own = TABLES[(1 + number % 3) as usize];
    let other = TABLES[(1 + (number + 1) % 3) as usize];
    for stack in [
        0x8000_2E80 + 0x40 * number,
        own.wrapping_add(0x180),
        other.wrapping_add(0x180),
        0x2A00,
    ] {
        block.push_long(stack);
    }
    for _ in 0..14 {
        block.push_long(draw.address());
    }
    block.push_long(16 * draw.below(128));
    block.push_long(draw.status());
    block.push_long(own.wrapping_add(0x8000_0000));
    block.push_long(0x80 - 4 * (number % 2) + 0x100_0000 * draw.below(5));
    block.push_long(0x7F80_4320);
    block.push_long(0x1F_FFF8);
    block
}

/// Eight contexts from 5000 on.
fn draw_blocks(stage: &mut Stage, draw: &mut Draw)
    requires { IsShadowedIn stage.old.machine.memory stage.old.guest }
    ensures { IsShadowedIn stage.new.machine.memory stage.new.guest }
{
    for number in 0..8 {
        let block = block(draw, number);
        let _ = stage.put(0x5000 + 0x80 * number, block.first(96));
    }
}

/// The stack pointers of the modes.
static STACKS: [u32; 4] = [0x8000_3000, 0x2600, 0x2800, 0x2A00];

/// A guest's next instruction is executed in this mode, on its stack.
pub fn enter(state: &mut GuestState, mode: u32) {
    Psl.put_into(state, 0x0140_0000 * (mode % 4));
    R(14).put_into(state, STACKS[(mode % 4) as usize]);
}

/// Numbers in R0 to R13, and a mode; and whether it has modify faults.
fn draw_registers(stage: &mut Stage, draw: &mut Draw, faults: bool)
    requires { IsShadowedIn stage.old.machine.memory stage.old.guest }
    ensures { IsShadowedIn stage.new.machine.memory stage.new.guest }
{
    let mut state = stage.copy();
    for n in 0..14 {
        R(n).put_into(&mut state, draw.address());
    }
    enter(&mut state, draw.mode());
    Place::ModifyFaults.put_into(&mut state, u32::from(faults));
    let _ = stage.set(state);
}

/// A guest that is drawn from a seed. That of every other odd seed has modify faults.
pub fn drawn_guest(alloc: Global, seed: u32) -> Result<Stage, NoMemory>
    ensures { IfOk result (λ stage. IsShadowedIn stage.machine.memory stage.guest) }
{
    let mut draw = Draw::new(seed);
    let mut stage = Stage::set_up(alloc, true)?;
    let code = Code::drawn(&mut draw);
    let _ = stage.put(0, code.bytes());
    let _ = stage.put(0x800, &BACK);
    let _ = stage.put(0x900, &BEGIN);
    let _ = stage.put(0x1000, &HANDLERS);
    draw_tables(&mut stage, &mut draw);
    draw_data(&mut stage, &mut draw);
    draw_blocks(&mut stage, &mut draw);
    let _ = stage.put_all(&FIXED);
    draw_registers(&mut stage, &mut draw, seed % 4 == 3);
    Ok(stage)
}
