ghost use Rattle.std.specs.Prelude.{◌≡◌, ◌%◌, ◌+◌, ◌≤◌, ◌<◌, ◌^◌, ℕ, [], true, drop, length, slice_index, take, OnOk};
ghost use Rattle.vax_arch.specs.declared.mode.Intent.TheVariants.{Read};
ghost use Rattle.vax_hw.specs.RealTables.{everywhere};
ghost use Rattle.vax_table.specs.Fetch.{fetched};
ghost use Rattle.vax_table.specs.Operations.{operation_of};
ghost use Rattle.vax_table.specs.Plan.{is_planned};
ghost use Rattle.vax_table.specs.Reading.{Whole, decoded_at};
ghost use Rattle.vax_table.specs.Interaction.{number_at, outcome};
ghost use Rattle.vax_table.specs.Spelling.{IsWellFormed, view};
ghost use Rattle.vax_kept.specs.Fetched.{byte_view, decoded_or_exit, exits, refusal_of};
ghost use Rattle.vax_paged.specs.Known.{AreKnown};
ghost use Rattle.vax_paged.specs.Paged.{at_byte, paged, placed};

use crate::changed::changed_register;
use crate::code::Code;
use crate::fault::{Fault, fault_of};
use crate::kept::{Kept, end_of, near_end_of};
use arrayvec::ArrayVec;
use vax_decode::{Decode, DecodeFault, Decoded, Front, decode, decode_into};
use vax_hw::{Refusal, World};
use vax_normal::{in_memory_of, normal_of, rarer_of};
use vax_paged::{Mapped, Paged, number_in};
use vv_base::Width;

/// Why bytes that spell nothing are refused.
fn refusal_of(fault: DecodeFault) -> Refusal
    ensures { result ≡ refusal_of fault }
{
    match fault {
        DecodeFault::Opcode => Refusal::Instruction,
        DecodeFault::Addressing => Refusal::Addressing,
    }
}

/// Whether the eight bytes at a place of a memory are the first eight of some.
fn has_eight(memory: &[u8], place: usize, bytes: &[u8; 24]) -> bool
    requires { place ≤ everywhere }
    ensures { result ≡ true → (i : ℕ) → i < 8 → slice_index memory.now (place + i) ≡ slice_index bytes.now i }
{
    number_in(memory, place, Width::Quad) == number_in(bytes, 0, Width::Quad)
}

/// Whether bytes are in a memory at a place.
#[cold]
#[inline(never)]
fn has_all(memory: &[u8], place: usize, bytes: &[u8]) -> bool
    requires { place ≤ everywhere }
    ensures { result ≡ true → take (length bytes.now) (drop place memory.now) ≡ bytes.now }
{
    place + bytes.len() <= memory.len() && &memory[place..place + bytes.len()] == bytes
}

/// Whether the bytes that spell a kept instruction are in a memory at a place.
fn stands_at(memory: &[u8], place: usize, kept: &Kept) -> bool
    requires place { place ≤ everywhere }
    requires length { kept.now.prepared.decoded.length ≤ 24 }
    ensures { result ≡ true → (i : ℕ) → i < kept.now.prepared.decoded.length → slice_index memory.now (place + i) ≡ slice_index kept.now.bytes i }
{
    let length = usize::from(kept.prepared.decoded.length);
    if length <= 8 && has_eight(memory, place, &kept.bytes) {
        return true;
    }
    has_all(memory, place, &kept.bytes[..length])
}

/// Whether an instruction of `length` bytes at an address lies in one page.
fn is_in_page(pc: u32, length: u8) -> bool
    ensures { result ≡ true → (pc % 512 + length ≤ 512) × (length ≤ 24) }
{
    length <= 24 && pc % 512 + u32::from(length) <= 512
}

/// Whether the bytes that spell a kept instruction are in a memory, the first `first` at one place and the others at another.
#[cold]
#[inline(never)]
fn stands_in_two(memory: &[u8], places: (usize, usize), first: usize, kept: &Kept) -> bool
    requires low { places.0 ≤ everywhere }
    requires high { places.1 ≤ everywhere }
    requires parts { first ≤ kept.now.prepared.decoded.length }
    requires length { kept.now.prepared.decoded.length ≤ 24 }
    ensures first { result ≡ true → (i : ℕ) → i < first → slice_index memory.now (places.0 + i) ≡ slice_index kept.now.bytes i }
    ensures others { result ≡ true → (i : ℕ) → first + i < kept.now.prepared.decoded.length →
        slice_index memory.now (places.1 + i) ≡ slice_index kept.now.bytes (first + i) }
{
    let length = usize::from(kept.prepared.decoded.length);
    has_all(memory, places.0, &kept.bytes[..first])
        && has_all(memory, places.1, &kept.bytes[first..length])
}

/// Whether kept bytes are at an address, whose place this is, over its page's end, so that the instruction there is the kept
/// one.
#[cold]
#[inline(never)]
fn has_over(space: &Paged, kept: &Kept, pc: u32, place: u32) -> bool
    requires there { Ok place ≡ at_byte Read pc (placed space.now.memory.now space.now.world.now Read pc) }
    requires small { place < 2 ^ 30 }
    ensures fetched { result ≡ true → Ok (view kept.now.prepared.decoded) ≡ exits (outcome (paged space.now.memory.now space.now.world.now) (fetched pc)) }
    ensures formed { result ≡ true → IsWellFormed (view kept.now.prepared.decoded) }
{
    let first = 512 - pc % 512;
    let length = u32::from(kept.prepared.decoded.length);
    if length < first || length > 24 {
        return false;
    }
    match space.place(pc.wrapping_add(first), false) {
        Ok(next) => {
            let places = (place as usize, next as usize);
            stands_in_two(space.memory, places, first as usize, kept)
        }
        Err(_) => false,
    }
}

/// Whether kept bytes are at an address, whose place this is, so that the instruction there is the kept one.
fn has(space: &Paged, kept: &Kept, pc: u32, place: u32) -> bool
    requires there { Ok place ≡ at_byte Read pc (placed space.now.memory.now space.now.world.now Read pc) }
    requires small { place < 2 ^ 30 }
    ensures fetched { result ≡ true → Ok (view kept.now.prepared.decoded) ≡ exits (outcome (paged space.now.memory.now space.now.world.now) (fetched pc)) }
    ensures formed { result ≡ true → IsWellFormed (view kept.now.prepared.decoded) }
{
    if !is_in_page(pc, kept.prepared.decoded.length) {
        return has_over(space, kept, pc, place);
    }
    stands_at(space.memory, place as usize, kept)
}

/// Whether kept bytes are at an address over its page's end, by two pages that are known, and the instruction is one that
/// `plan_into` plans.
#[cold]
#[inline(never)]
fn has_known_over(space: Mapped, world: &World, kept: &Kept, pc: u32) -> bool
    requires { AreKnown space.memory.now world.now space.known.now }
    ensures fetched { result ≡ true → Ok (view kept.now.prepared.decoded) ≡ exits (outcome (paged space.entry.memory.now world.now) (fetched pc)) }
    ensures formed { result ≡ true → IsWellFormed (view kept.now.prepared.decoded) }
    ensures planned { result ≡ true → is_planned (operation_of kept.now.prepared.decoded.opcode) ≡ true }
{
    let first = 512 - pc % 512;
    if kept.end == 0 || u32::from(kept.prepared.decoded.length) < first {
        return false;
    }
    let Some(place) = space.place(pc, false) else {
        return false;
    };
    match space.place(pc.wrapping_add(first), false) {
        Some(next) => {
            let places = (place, next);
            stands_in_two(space.memory, places, first as usize, kept)
        }
        None => false,
    }
}

/// Whether kept bytes are at an address, in one page that is known.
pub fn has_known_in_page(space: &Mapped, world: &World, kept: &Kept, pc: u32) -> bool
    requires { AreKnown space.now.memory.now world.now space.now.known.now }
    ensures fetched { result ≡ true → Ok (view kept.now.prepared.decoded) ≡ exits (outcome (paged space.now.memory.now world.now) (fetched pc)) }
    ensures formed { result ≡ true → IsWellFormed (view kept.now.prepared.decoded) }
{
    if !is_in_page(pc, kept.prepared.decoded.length) {
        return false;
    }
    match space.place(pc, false) {
        Some(place) => stands_at(space.memory, place, kept),
        None => false,
    }
}

/// Whether the bytes of an instruction that has at most eight are at an address that has this place, in one page.
#[inline(always)]
pub fn has_short(memory: &[u8], world: &World, kept: &Kept, pc: u32, place: usize) -> bool
    requires there { placed memory.now world.now Read pc ≡ Ok place }
    requires low { place ≤ everywhere }
    requires short { kept.now.prepared.decoded.length ≤ 8 }
    requires inside { pc % 512 + kept.now.prepared.decoded.length ≤ 512 }
    ensures fetched { result ≡ true → Ok (view kept.now.prepared.decoded) ≡ exits (outcome (paged memory.now world.now) (fetched pc)) }
    ensures formed { IsWellFormed (view kept.now.prepared.decoded) }
{
    has_eight(memory, place, &kept.bytes)
}

/// Whether at most eight kept bytes are at an address that has this place, in one page; it is one that `plan_into` plans.
#[inline(always)]
pub fn has_at(memory: &[u8], world: &World, kept: &Kept, pc: u32, place: usize) -> bool
    requires there { placed memory.now world.now Read pc ≡ Ok place }
    requires low { place ≤ everywhere }
    requires inside { pc % 512 < kept.now.near_end }
    ensures fetched { result ≡ true → Ok (view kept.now.prepared.decoded) ≡ exits (outcome (paged memory.now world.now) (fetched pc)) }
    ensures planned { is_planned (operation_of kept.now.prepared.decoded.opcode) ≡ true }
{
    has_short(memory, world, kept, pc, place)
}

/// Whether kept bytes are at an address, by what is known, and the instruction is one that `plan_into` plans.
#[inline(always)]
pub fn has_known(space: &Mapped, world: &World, kept: &Kept, pc: u32) -> bool
    requires { AreKnown space.now.memory.now world.now space.now.known.now }
    ensures fetched { result ≡ true → Ok (view kept.now.prepared.decoded) ≡ exits (outcome (paged space.now.memory.now world.now) (fetched pc)) }
    ensures formed { result ≡ true → IsWellFormed (view kept.now.prepared.decoded) }
    ensures planned { result ≡ true → is_planned (operation_of kept.now.prepared.decoded.opcode) ≡ true }
{
    if kept.end <= pc % 512 {
        return has_known_over(*space, world, kept, pc);
    }
    match space.place(pc, false) {
        Some(place) => stands_at(space.memory, place, kept),
        None => false,
    }
}

/// Copies the bytes of a memory from a place on, as far as it has them.
fn copy_from(memory: &[u8], place: usize, bytes: &mut [u8])
    requires { place ≤ everywhere }
{
    let end = memory.len().min(place + bytes.len());
    if place < end {
        bytes[..end - place].copy_from_slice(&memory[place..end]);
    }
}

/// The bytes from an address on, whose place this is, and zeros where they can't be read.
fn window(space: &Paged, pc: u32, place: u32) -> [u8; 24]
    requires { place < 2 ^ 30 }
{
    let mut bytes = [0; 24];
    let first = (512 - pc % 512).min(24);
    copy_from(space.memory, place as usize, &mut bytes[..first as usize]);
    if first < 24 {
        if let Ok(next) = space.place(pc.wrapping_add(first), false) {
            copy_from(space.memory, next as usize, &mut bytes[first as usize..]);
        }
    }
    bytes
}

/// An instruction is kept, with the bytes that it was decoded from, and those that come after it.
fn keep(kept: &mut Kept, bytes: &[u8; 24], decoded: Decoded)
    requires formed { IsWellFormed (view decoded) }
    requires spelled { decoded_at (take decoded.length bytes.now) ≡ Whole (view decoded) [] }
    ensures { kept.new.prepared.decoded ≡ decoded }
{
    kept.bytes = *bytes;
    kept.end = end_of(&decoded);
    kept.near_end = near_end_of(&decoded);
    kept.prepared.renew(decoded);
    kept.changed = changed_register(&kept.prepared);
    kept.normal = normal_of(&kept.prepared);
    kept.in_memory = None;
    kept.rarer = None;
    if kept.normal.is_none() {
        kept.in_memory = in_memory_of(&kept.prepared);
        if kept.in_memory.is_none() {
            kept.rarer = rarer_of(&kept.prepared);
        }
    }
}

/// Bytes, and zeros after them.
fn with_zeros(bytes: &[u8]) -> [u8; 24]
    requires { length bytes.now ≤ 24 }
    ensures { take (length bytes.now) result ≡ bytes.now }
{
    let mut all = [0; 24];
    all[..bytes.len()].copy_from_slice(bytes);
    all
}

/// A byte of an instruction.
fn fetch_byte(space: &Paged, va: u32) -> Result<u8, Fault>
    ensures { byte_view result ≡ exits (number_at (paged space.now.memory.now space.now.world.now) Read 1 va) }
{
    space.byte(va, false).map_err(fault_of)
}

/// The instruction at an address is decoded byte by byte, each by its own page, and kept.
#[tactic(auto, unfolding(vax_table::specs::Fetch::fetched, vax_table::specs::Fetch::decided))]
#[cold]
#[inline(never)]
fn fetch_anew(space: &Paged, pc: u32, kept: &mut Kept) -> Result<(), Fault>
    ensures fetched { decoded_or_exit kept.new.prepared.decoded result ≡ exits (outcome (paged space.now.memory.now space.now.world.now) (fetched pc)) }
    ensures formed { OnOk result (IsWellFormed (view kept.new.prepared.decoded)) }
{
    let mut bytes: ArrayVec<u8, 24> = ArrayVec::new();
    for _looks in (0..22u32).rev() {
        match decode(bytes.as_slice()) {
            Decode::Done(decoded) => {
                keep(kept, &with_zeros(bytes.as_slice()), decoded);
                return Ok(());
            }
            Decode::NeedMore => match fetch_byte(space, pc.wrapping_add(bytes.len() as u32)) {
                Ok(byte) => bytes.push(byte),
                Err(fault) => {
                    return Err(fault);
                }
            },
            Decode::Fault(fault) => {
                return Err(Fault::Refused(refusal_of(fault)));
            }
        }
    }
    Err(Fault::Refused(Refusal::Instruction))
}

/// What bytes spell is kept, if they spell something.
fn respell(bytes: &[u8; 24], kept: &mut Kept) -> bool {
    let mut decoded = Decoded {
        opcode: 0,
        wait: false,
        length: 0,
        specs: ArrayVec::new(),
    };
    match decode_into(bytes, &mut decoded) {
        Front::Done => {
            keep(kept, bytes, decoded);
            true
        }
        _ => false,
    }
}

/// Whether other bytes were kept of the instruction at an address than stand there, in a page that is known: what these spell is
/// kept now. Where that is used it is compared with memory.
#[cold]
#[inline(never)]
pub fn renew(space: &Mapped, pc: u32, code: &mut Code) -> bool {
    let Some(place) = space.place(pc, false) else {
        return false;
    };
    let at = code.place_for(pc);
    let kept = &mut code.places[at];
    if place + 24 > space.memory.len() || has_eight(space.memory, place, &kept.bytes) {
        return false;
    }
    let mut bytes = [0; 24];
    bytes.copy_from_slice(&space.memory[place..place + 24]);
    respell(&bytes, kept)
}

/// The instruction at an address, which is kept, and taken where it was kept already. It is decoded once where all its bytes
/// can be read, and else byte by byte.
pub fn fetch(space: &Paged, pc: u32, kept: &mut Kept) -> Result<(), Fault>
    ensures fetched { decoded_or_exit kept.new.prepared.decoded result ≡ exits (outcome (paged space.now.memory.now space.now.world.now) (fetched pc)) }
    ensures formed { OnOk result (IsWellFormed (view kept.new.prepared.decoded)) }
{
    if let Ok(place) = space.place(pc, false) {
        if has(space, kept, pc, place) {
            return Ok(());
        }
        if respell(&window(space, pc, place), kept) && has(space, kept, pc, place) {
            return Ok(());
        }
    }
    fetch_anew(space, pc, kept)
}
