ghost use Rattle.std.specs.Prelude.{◌≡◌, ◌∷◌, [], IfOk};
ghost use Rattle.vvmm_files.specs.Fetches.{FetchesSolo};
ghost use Rattle.vvmm_files.specs.Solo.{lowest, solo_config};

use crate::fetching::{Inputs, fetch_file};
use crate::stop::CommandFault;
use crate::words::Order;
use std::alloc::Global;
use sys_objects::{Config, GuestRow, Rows, Terminal};
use vv_base::{Name, NoMemory};
use vv_class::AccessClass;
use vv_io::Shelf;

/// The guest's pages, and the address at which it is loaded and started.
const PAGES: u32 = 128;

const LOAD: u32 = 0x200;

/// The class of all of it.
fn lowest() -> AccessClass
    ensures { result ≡ lowest }
{
    AccessClass {
        secrecy: 0,
        secrecy_cats: 0,
        integrity: 0,
        integrity_cats: 0,
    }
}

/// A name of one letter.
fn letter(b: u8) -> Name
    ensures { result ≡ b ∷ [] }
{
    let mut name = Name::new();
    name.append_byte(b);
    name
}

/// The configuration of `solo`: the guest A alone, with its console on line 0 and its dump on line 1.
fn solo_config(alloc: Global, order: Order) -> Result<Config, NoMemory>
    ensures { IfOk result (λ c. c ≡ solo_config (record { image = order.image; steps = order.steps })) }
{
    let mut terminals = Vec::new(alloc);
    terminals.push(Terminal {
        name: letter(b'T'),
        line: 0,
        class: lowest(),
    })?;
    let mut guests = Vec::new(alloc);
    guests.push(GuestRow {
        name: letter(b'A'),
        class: lowest(),
        pages: PAGES,
        image: order.image,
        load: LOAD,
        start: LOAD,
        autostart: true,
        console: Some(0),
        printer: None,
        dump: Some(1),
        mounts: [None; 4],
        modify_faults: false,
        quantum: order.steps,
    })?;
    Ok(Config {
        slice: order.steps,
        audit: None,
        terminals: Rows::new(terminals),
        volumes: Rows::new(Vec::new(alloc)),
        printers: Rows::new(Vec::new(alloc)),
        guests: Rows::new(guests),
    })
}

/// What the run of one guest is made of.
pub fn solo_inputs<S: Shelf>(
    alloc: Global,
    order: Order,
    shelf: &mut S,
) -> Result<Inputs, CommandFault>
    ensures fetches { FetchesSolo (S.files shelf.old) (record { image = order.image; steps = order.steps }) (S.faults shelf.old) (S.faults shelf.new) result }
    ensures files { S.files shelf.new ≡ S.files shelf.old }
{
    let image = fetch_file(alloc, shelf, &order.image)?;
    let config = solo_config(alloc, order)?;
    let mut images = Vec::new(alloc);
    images.push(image)?;
    Ok(Inputs {
        config,
        events: Vec::new(alloc),
        images,
    })
}
