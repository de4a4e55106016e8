ghost use Rattle.std.specs.Prelude.{◌≡◌, ◌<◌, IfOk, IsTrue, OnOk};
ghost use Rattle.sys_script.specs.Texts.{is_text};
ghost use Rattle.sys_script.specs.declared.event.Typed.TheVariants.{Line};
ghost use Rattle.vv_gen.specs.Draws.{after_draws, draw};
ghost use Rattle.vv_gen.specs.Events.{event_of, events_drawn, mount_text, typed_of};

use crate::config::numbered;
use crate::draws::{Draws, drawn};
use std::alloc::Global;
use sys_script::{Event, LineText, Typed};
use vv_base::NoMemory;

/// How many rounds are run.
pub const ROUNDS: u32 = 20;

fn line(alloc: Global, text: &[u8]) -> Result<Typed, NoMemory>
    requires { IsTrue (is_text text.now) }
    ensures { IfOk result (λ t. t ≡ Line text.now) }
{
    Ok(Typed::Line(LineText::new(alloc, text)?))
}

/// A guest mounts the shared volume for reading.
fn mount_text(guest: u8) -> [u8; 18]
    requires { guest < 8 }
    ensures { result ≡ mount_text guest }
{
    let mut text = *b"MOUNT G0 2 V0 READ";
    text[7] = b'0' + guest;
    text
}

/// What happens at the terminal with this digit, one of four things.
#[tactic(auto, using(crate::proofs::Happening::mount_is_text))]
fn typed(alloc: Global, digit: u8, which: u8) -> Result<Typed, NoMemory>
    requires digit { digit < 8 }
    requires which { which < 4 }
    ensures { IfOk result (λ t. t ≡ typed_of digit which) }
{
    match which {
        0 => Ok(Typed::Break),
        1 => line(alloc, b"SHOW"),
        2 => line(alloc, &mount_text(digit)),
        _ => line(alloc, b"HELLO"),
    }
}

/// The event of a round: a terminal, and what happens there.
#[tactic(auto, using(crate::proofs::Drawing::second_draw, crate::proofs::Drawing::after_two))]
fn drawn_event(alloc: Global, draws: &mut Draws, round: u32) -> Result<Event, NoMemory>
    ensures event { IfOk result (λ e. e ≡ event_of round (draw draws.old.state)) }
    ensures goes { OnOk result (draws.new.state ≡ after_draws draws.old.state 2) }
{
    let digit = (drawn(draws) % 8) as u8;
    let which = (drawn(draws) % 4) as u8;
    Ok(Event {
        round,
        terminal: numbered(b"T", digit),
        what: typed(alloc, digit, which)?,
    })
}

/// One event in each round.
#[tactic(auto, using(crate::proofs::Drawing::after_none))]
pub fn drawn_events(alloc: Global, draws: &mut Draws) -> Result<Vec<Event>, NoMemory>
    ensures { IfOk result (λ v. v.items ≡ events_drawn (draw draws.old.state)) }
{
    let mut events = Vec::new(alloc);
    for before in 0..ROUNDS {
        events.push(drawn_event(alloc, draws, before + 1)?)?;
    }
    Ok(events)
}
