//! What happens to a guest from outside.

ghost use Rattle.vm_guest.specs.Kept.{IsShadowedIn};

use crate::draw::{Draw, entry};
use crate::guests::enter;
use test_vm_stage::Place::{P0br, R, Sbr};
use test_vm_stage::{Place, Stage};
use vm_state::GuestState;

/// What happens to a guest between its steps: a byte is typed, a transfer ends, a longword is stored, the entry of the page of a
/// register's address is, it starts, or it is stopped.
#[derive(Clone, Copy)]
pub enum Event {
    Nothing,
    Type(u8),
    Transfer,
    Store(u32, u32),
    Remap(usize, u32),
    Start,
    Stop,
}

/// A store that is drawn: an entry of a table, or a longword of data.
fn drawn_store(draw: &mut Draw) -> Event {
    if draw.one_of(4) {
        Event::Store(draw.data(), draw.address())
    } else {
        let page = draw.page();
        Event::Store(draw.entry_place(page), entry(draw, page))
    }
}

/// An event that is drawn.
pub fn drawn_event(draw: &mut Draw) -> Event {
    match draw.below(16) {
        0 | 1 => Event::Type(draw.byte()),
        2 | 3 => Event::Transfer,
        4 | 5 | 6 => drawn_store(draw),
        7 | 8 => {
            let page = draw.data_page();
            Event::Remap((draw.below(8) % 8) as usize, entry(draw, page))
        }
        9 => Event::Start,
        10 => Event::Stop,
        _ => Event::Nothing,
    }
}

/// What an event changes of the registers, if anything.
fn change(state: &mut GuestState, event: Event) -> bool {
    match event {
        Event::Type(byte) => Place::Typed.put_into(state, u32::from(byte)),
        Event::Transfer => {
            state.kcall_due = true;
            state.queue.clear();
        }
        _ => return false,
    }
    true
}

/// One that has stopped runs on at 200 in this mode; whether it had stopped.
fn go_on(state: &mut GuestState, mode: u32) -> bool {
    let stood = state.halt.is_some();
    if stood {
        state.halt = None;
        state.r[15] = 0x200;
        enter(state, mode);
    }
    stood
}

/// The physical address of the entry for the page of a register's address.
fn entry_of(state: &GuestState, n: usize) -> u32 {
    let va = R(n).of(state);
    let table = if va < 0x8000_0000 {
        P0br.of(state) % 0x8000_0000
    } else {
        Sbr.of(state)
    };
    table.wrapping_add(va % 0x4000_0000 / 512 * 4)
}

/// What an event does besides.
fn act(stage: &mut Stage, event: Event)
    requires { IsShadowedIn stage.old.machine.memory stage.old.guest }
    ensures { IsShadowedIn stage.new.machine.memory stage.new.guest }
{
    match event {
        Event::Store(pa, v) => {
            let _ = stage.put(pa, &v.to_le_bytes());
        }
        Event::Remap(n, v) => {
            let place = entry_of(stage.state(), n);
            let _ = stage.put(place, &v.to_le_bytes());
        }
        Event::Start => stage.guest.start(&mut stage.machine),
        Event::Stop => stage.guest.stop(&mut stage.port),
        _ => {}
    }
}

/// It happens to a guest; one that has stopped runs on in this mode. Registers are set only where one changes, since the tables
/// switch to what is set.
pub fn happen(stage: &mut Stage, event: Event, mode: u32)
    requires { IsShadowedIn stage.old.machine.memory stage.old.guest }
    ensures { IsShadowedIn stage.new.machine.memory stage.new.guest }
{
    act(stage, event);
    let mut state = stage.copy();
    let is_changed = change(&mut state, event);
    let stood = go_on(&mut state, mode);
    if is_changed || stood {
        let _ = stage.set(state);
    }
}
