ghost use Rattle.std.specs.List.{list_any};
ghost use Rattle.std.specs.Prelude.{◌≡◌, slice_get};
ghost use Rattle.sys_flow.specs.Objects.{object_of};
ghost use Rattle.sys_flow.specs.Reach.{has_edge, has_terminal, is_edge, is_mount_of, is_read_by, is_written_mount_of, meets, prints_on, shows_on, written_by};

use crate::objects::{Place, object_at};
use sys_objects::{Config, GuestRow, Mount, same_class};
use vv_class::{AccessClass, flows};

/// Whether a terminal has the class.
fn has_terminal(c: &Config, class: &AccessClass) -> bool
    ensures { result ≡ has_terminal c.now class.now }
{
    c.terminals
        .as_slice()
        .iter()
        .any(|t| same_class(&t.class, class))
}

fn is_mount_of(volume: usize, mount: Option<Mount>) -> bool
    ensures { result ≡ is_mount_of volume mount }
{
    match mount {
        Some(m) => usize::from(m.volume) == volume,
        None => false,
    }
}

fn is_written_mount_of(volume: usize, mount: Option<Mount>) -> bool
    ensures { result ≡ is_written_mount_of volume mount }
{
    match mount {
        Some(m) => m.write && usize::from(m.volume) == volume,
        None => false,
    }
}

/// Whether the guest mounts the volume in the configuration.
fn mounts(g: &GuestRow, volume: usize) -> bool
    ensures { result ≡ list_any (is_mount_of volume) g.now.mounts }
{
    g.mounts.iter().any(|m| is_mount_of(volume, *m))
}

/// Whether it mounts it for writing.
fn mounts_to_write(g: &GuestRow, volume: usize) -> bool
    ensures { result ≡ list_any (is_written_mount_of volume) g.now.mounts }
{
    g.mounts.iter().any(|m| is_written_mount_of(volume, *m))
}

/// What is typed at the terminal goes to a guest of its class.
fn meets(c: &Config, terminal: usize, guest: usize) -> bool
    ensures { result ≡ meets (slice_get c.now.terminals terminal) (slice_get c.now.guests guest) }
{
    match (
        c.terminals.as_slice().get(terminal),
        c.guests.as_slice().get(guest),
    ) {
        (Some(t), Some(g)) => same_class(&g.class, &t.class),
        _ => false,
    }
}

/// The terminal shows whether a guest that flows into it runs.
fn shows_on(c: &Config, guest: usize, terminal: usize) -> bool
    ensures { result ≡ shows_on (slice_get c.now.guests guest) (slice_get c.now.terminals terminal) }
{
    match (
        c.guests.as_slice().get(guest),
        c.terminals.as_slice().get(terminal),
    ) {
        (Some(g), Some(t)) => flows(&g.class, &t.class),
        _ => false,
    }
}

fn prints_on(c: &Config, guest: usize, printer: usize) -> bool
    ensures { result ≡ prints_on (slice_get c.now.guests guest) printer }
{
    match c.guests.as_slice().get(guest) {
        Some(g) => match g.printer {
            Some(place) => usize::from(place) == printer,
            None => false,
        },
        None => false,
    }
}

fn read_by(c: &Config, volume: usize, guest: usize) -> bool
    ensures { result ≡ is_read_by c.now volume (slice_get c.now.volumes volume) (slice_get c.now.guests guest) }
{
    match (
        c.volumes.as_slice().get(volume),
        c.guests.as_slice().get(guest),
    ) {
        (Some(v), Some(g)) => {
            mounts(g, volume) || flows(&v.class, &g.class) && has_terminal(c, &g.class)
        }
        _ => false,
    }
}

fn written_by(c: &Config, guest: usize, volume: usize) -> bool
    ensures { result ≡ written_by c.now volume (slice_get c.now.guests guest) (slice_get c.now.volumes volume) }
{
    match (
        c.guests.as_slice().get(guest),
        c.volumes.as_slice().get(volume),
    ) {
        (Some(g), Some(v)) => {
            mounts_to_write(g, volume)
                || same_class(&v.class, &g.class) && has_terminal(c, &g.class)
        }
        _ => false,
    }
}

fn is_edge(c: &Config, from: Place, to: Place) -> bool
    ensures { result ≡ is_edge c.now (object_of from) (object_of to) }
{
    match (from, to) {
        (Place::Terminal(t), Place::Guest(g)) => meets(c, t, g),
        (Place::Terminal(_), Place::Audit) => true,
        (Place::Guest(g), Place::Terminal(t)) => shows_on(c, g, t),
        (Place::Guest(g), Place::Printer(p)) => prints_on(c, g, p),
        (Place::Volume(v), Place::Guest(g)) => read_by(c, v, g),
        (Place::Guest(g), Place::Volume(v)) => written_by(c, g, v),
        _ => false,
    }
}

/// Whether what is given to the object of number `a` may reach that of number `b` at one step. Objects are numbered from 0:
/// terminals, volumes, printers, guests, and then the audit.
pub fn edge(c: &Config, a: u8, b: u8) -> bool
    ensures { result ≡ has_edge c.now a b }
{
    match (object_at(c, usize::from(a)), object_at(c, usize::from(b))) {
        (Some(from), Some(to)) => is_edge(c, from, to),
        _ => false,
    }
}
