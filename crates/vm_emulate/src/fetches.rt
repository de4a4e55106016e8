ghost use Rattle.std.specs.Prelude.{[], ◌≡◌, ◌≤◌, ◌<◌, ◌+◌, ◌*◌, All, None, Ok, length, map};
ghost use Rattle.vax_arch.specs.WalkLaws.{AreAligned};
ghost use Rattle.vax_table.specs.Claims.{addresses};
ghost use Rattle.vax_table.specs.Tries.{first_clear};
ghost use Rattle.vax_table.specs.declared.act.Dest.TheVariants.{Memory};
ghost use Rattle.vm_emulate.specs.Emulated.{Senses};
ghost use Rattle.vm_emulate.specs.Fetched.{ArePlaces, IsPlace, MovesFromRegister, bytes_placed, with_value};
ghost use Rattle.vm_exception.specs.Pushed.{home_of};
ghost use Rattle.vm_exception.specs.Wrote.{PutsHomes};
ghost use Rattle.vm_shadow.specs.Shadowed.{Keeps};
ghost use Rattle.vm_shadow.specs.StandsFor.{StandsFor};
ghost use Rattle.vm_state.specs.Partition.{guest_of};
ghost use Rattle.vm_state.specs.Sensed.{ClearAt};
ghost use Rattle.vm_state.specs.Sensitive.{move_from_register};
ghost use Rattle.vm_state.specs.State.{HasPlace, state_of, tables_of};
ghost use Rattle.vm_state.specs.Translation.{is_clear};

use crate::Emulated;
use crate::halts::{registers_after, stop_past_memory};
use crate::moves::set_codes;
use crate::reading::Unread;
use vax_arch::{Intent, Pte};
use vax_hw::Hardware;
use vax_table::{Dest, Trapped};
use vm_exception::{Home, put_homes};
use vm_ipr::{is_readable, mfpr};
use vm_shadow::Shadow;
use vm_state::{Exc, GuestState, ReservedOperand};
use vm_walk::{Lookup, Walk, look_up, walk};

/// The place of the byte at an address, which is to be written in the guest's mode.
fn place_of<H: Hardware>(machine: &H, g: &GuestState, va: u32) -> Result<u32, Unread>
    requires partition { 512 * (g.now.base + g.now.pages) ≤ length (H.machine machine.now).memory }
    requires tables { AreAligned (tables_of g.now) }
    ensures { IsPlace (guest_of (H.machine machine.now).memory g.now) va result }
{
    match walk(machine, g, va, g.psl.current(), Intent::Write) {
        Walk::Frame { pa, .. } => Ok(pa),
        Walk::Fault(fault) => Err(Unread::Faulty(fault)),
        Walk::Beyond => Err(Unread::PastMemory),
    }
}

/// The places of the bytes of a longword at an address, which are to be written in the guest's mode.
fn places_at<H: Hardware>(machine: &H, g: &GuestState, at: u32) -> Result<[u32; 4], Unread>
    requires partition { 512 * (g.now.base + g.now.pages) ≤ length (H.machine machine.now).memory }
    requires tables { AreAligned (tables_of g.now) }
    ensures { ArePlaces (guest_of (H.machine machine.now).memory g.now) 4 at result }
{
    let first = place_of(machine, g, at)?;
    let second = place_of(machine, g, at.wrapping_add(1))?;
    let third = place_of(machine, g, at.wrapping_add(2))?;
    let fourth = place_of(machine, g, at.wrapping_add(3))?;
    Ok([first, second, third, fourth])
}

/// The addresses of the bytes of a longword.
fn addresses(at: u32) -> [u32; 4]
    ensures { result ≡ addresses 4 at }
{
    [
        at,
        at.wrapping_add(1),
        at.wrapping_add(2),
        at.wrapping_add(3),
    ]
}

/// Whether the modify bit of an address's page is clear; with mapping off none is.
#[tactic(auto, using(vm_state::proofs::Parts::part_length, vm_state::proofs::Parts::part_long))]
fn is_clear<H: Hardware>(machine: &H, g: &GuestState, va: u32) -> bool
    requires { 512 * (g.now.base + g.now.pages) ≤ length (H.machine machine.now).memory }
    ensures { result ≡ is_clear (guest_of (H.machine machine.now).memory g.now) va }
{
    let _all = machine.pages();
    match look_up(machine, g, va / 512) {
        Lookup::Found { place, .. } => !Pte(machine.read_long(512 * g.base + place)).modified(),
        Lookup::Direct { .. } => false,
        Lookup::Fails { .. } => false,
        Lookup::Beyond => false,
    }
}

/// The first of some addresses whose page has a clear modify bit.
fn first_clear<H: Hardware>(machine: &H, g: &GuestState, addresses: &[u32]) -> Option<u32>
    requires { 512 * (g.now.base + g.now.pages) ≤ length (H.machine machine.now).memory }
    ensures { result ≡ first_clear (is_clear (guest_of (H.machine machine.now).memory g.now)) addresses.now }
{
    for va in addresses {
        if is_clear(machine, g, *va) {
            return Some(*va);
        }
    }
    None
}

/// A byte with its place, whose page isn't to be marked.
fn home(place: u32, value: u8) -> Home
    ensures { result ≡ record { place = place; entry = None; value = value } }
{
    Home {
        place,
        entry: None,
        value,
    }
}

/// The bytes of a longword, each with its place.
fn homes_of(places: [u32; 4], long: u32) -> [Home; 4]
    ensures { map home_of result ≡ bytes_placed places long }
{
    let [first, second, third, fourth] = long.to_le_bytes();
    [
        home(places[0], first),
        home(places[1], second),
        home(places[2], third),
        home(places[3], fourth),
    ]
}

/// Writes a longword, each of its bytes to its place.
fn put_long<H: Hardware>(machine: &mut H, s: &mut Shadow, places: [u32; 4], long: u32)
    requires keeps { Keeps [] [] (H.machine machine.old).memory s.old }
    requires inside { All (λ pa. pa < 512 * s.old.pages) places }
    ensures { PutsHomes (bytes_placed places long) (H.machine machine.old) s.old (H.machine machine.new) s.new }
{
    let homes = homes_of(places, long);
    put_homes(machine, s, &homes);
}

/// Reads the register that MFPR names, and goes after it with the codes of the value. A refused read changes nothing.
fn read_register(g: &mut GuestState, t: &Trapped) -> Result<u32, ReservedOperand>
    requires { g.old.pages ≤ 65536 }
    ensures is { MovesFromRegister g.old t.now result g.new }
    ensures place { HasPlace g.old.pages g.old.base g.old.start g.new }
{
    let before = g.r;
    g.r = registers_after(t);
    match mfpr(g, t.a) {
        Ok(v) => {
            set_codes(g, v);
            Ok(v)
        }
        Err(refused) => {
            g.r = before;
            Err(refused)
        }
    }
}

/// Puts a value into the register that is its destination; one in memory is left as it is.
fn put_value(g: &mut GuestState, dest: Dest, v: u32)
    ensures state { state_of g.new ≡ with_value dest v (state_of g.old) }
    ensures place { HasPlace g.old.pages g.old.base g.old.start g.new }
{
    match dest {
        Dest::Register(n) => {
            if n < 16 {
                g.r[usize::from(n)] = v;
            }
        }
        Dest::Nowhere => {}
        Dest::Memory(_) => {}
    }
}

/// At a page with a clear modify bit, a guest that has modify faults has one, and for another the bit is set.
fn meet_clear<H: Hardware>(machine: &mut H, s: &mut Shadow, g: &GuestState, va: u32) -> Emulated
    requires { StandsFor (H.machine machine.old).memory s.old g.now }
    ensures { Senses (ClearAt va) (H.machine machine.old) s.old g.now result (H.machine machine.new) s.new g.now }
{
    if g.modify_faults {
        return Emulated::Fault(Exc::ModifyFault { va });
    }
    s.mark_modified(machine, g, va);
    Emulated::SetModify { va }
}

/// MFPR to a longword of memory whose bytes have places. Where one of their pages has a clear modify bit, the register isn't
/// read.
fn fetch_to_places<H: Hardware>(
    machine: &mut H,
    s: &mut Shadow,
    g: &mut GuestState,
    t: &Trapped,
    at: u32,
    places: [u32; 4],
) -> Emulated
    requires stands { StandsFor (H.machine machine.old).memory s.old g.old }
    requires dest { t.now.dest ≡ Memory at }
    requires places { ArePlaces (guest_of (H.machine machine.old).memory g.old) 4 at (Ok places) }
    ensures { Senses (move_from_register (guest_of (H.machine machine.old).memory g.old) t.now)
        (H.machine machine.old) s.old g.old result (H.machine machine.new) s.new g.new }
{
    match first_clear(machine, g, &addresses(at)) {
        Some(va) if is_readable(t.a) => meet_clear(machine, s, g, va),
        Some(_) => Emulated::Fault(Exc::ReservedOperand),
        None => match read_register(g, t) {
            Ok(v) => {
                put_long(machine, s, places, v);
                Emulated::Done
            }
            Err(_) => Emulated::Fault(Exc::ReservedOperand),
        },
    }
}

/// MFPR to a longword of memory.
fn fetch_to_memory<H: Hardware>(
    machine: &mut H,
    s: &mut Shadow,
    g: &mut GuestState,
    t: &Trapped,
    at: u32,
) -> Emulated
    requires stands { StandsFor (H.machine machine.old).memory s.old g.old }
    requires dest { t.now.dest ≡ Memory at }
    ensures { Senses (move_from_register (guest_of (H.machine machine.old).memory g.old) t.now)
        (H.machine machine.old) s.old g.old result (H.machine machine.new) s.new g.new }
{
    match places_at(machine, g, at) {
        Ok(places) => fetch_to_places(machine, s, g, t, at, places),
        Err(Unread::Faulty(fault)) => Emulated::Fault(Exc::Memory(fault)),
        Err(Unread::PastMemory) => stop_past_memory(g),
    }
}

/// MFPR: reads a register into a destination. One in memory is walked for writing first, and trouble there comes before the
/// register's number is tested; after that test comes a clear modify bit, with which the register isn't read.
pub fn move_from_register<H: Hardware>(
    machine: &mut H,
    s: &mut Shadow,
    g: &mut GuestState,
    t: &Trapped,
) -> Emulated
    requires { StandsFor (H.machine machine.old).memory s.old g.old }
    ensures { Senses (move_from_register (guest_of (H.machine machine.old).memory g.old) t.now)
        (H.machine machine.old) s.old g.old result (H.machine machine.new) s.new g.new }
{
    if let Dest::Memory(at) = t.dest {
        return fetch_to_memory(machine, s, g, t, at);
    }
    let Ok(v) = read_register(g, t) else {
        return Emulated::Fault(Exc::ReservedOperand);
    };
    put_value(g, t.dest, v);
    Emulated::Done
}
