ghost use Rattle.std.specs.Prelude.{◌≡◌, ◌<◌, ◌≤◌, ◌&&◌, IfSome, Some, bytes_eq, length, slice_get};
ghost use Rattle.vv_class.specs.Class.{does_flow};
ghost use Rattle.sys_server.specs.Apply.{HasPlaces, MayApply};
ghost use Rattle.sys_server.specs.CommandLine.{IsAsked};
ghost use Rattle.sys_server.specs.Replies.{reply_of};
ghost use Rattle.sys_server.specs.Verdict.{judged, on_dismount, on_mount, on_row, on_rows, unless_empty, verdict_of, visible_guest_place, visible_volume_place};

use crate::line::asked_in;
use crate::{Command, NamedCommand, Rule, ServerState, Verdict};
use sys_objects::{Config, GuestRow, Mount, VolumeRow, same_class};
use vv_base::Name;
use vv_class::{AccessClass, flows};

fn is_seen_guest(g: &GuestRow, class: &AccessClass, name: &Name) -> bool
    ensures { result ≡ (bytes_eq g.now.name name.now && does_flow g.now.class class.now) }
{
    g.name.bytes() == name.bytes() && flows(&g.class, class)
}

fn first_guest(guests: &[GuestRow], class: &AccessClass, name: &Name) -> Option<usize>
    ensures value { result ≡ visible_guest_place guests.now class.now name.now }
    ensures within { IfSome result (λ i. i < length guests.now) }
{
    guests.iter().position(|g| is_seen_guest(g, class, name))
}

/// The place of the guest of a name that the class sees.
fn guest_place(guests: &[GuestRow], class: &AccessClass, name: &Name) -> Option<u8>
    requires { length guests.now ≤ 16 }
    ensures value { result ≡ visible_guest_place guests.now class.now name.now }
    ensures within { IfSome result (λ g. g < 16) }
{
    match first_guest(guests, class, name) {
        Some(place) => Some(place as u8),
        None => None,
    }
}

fn is_seen_volume(v: &VolumeRow, class: &AccessClass, name: &Name) -> bool
    ensures { result ≡ (bytes_eq v.now.name name.now && does_flow v.now.class class.now) }
{
    v.name.bytes() == name.bytes() && flows(&v.class, class)
}

fn first_volume(volumes: &[VolumeRow], class: &AccessClass, name: &Name) -> Option<usize>
    ensures value { result ≡ visible_volume_place volumes.now class.now name.now }
    ensures within { IfSome result (λ i. i < length volumes.now) }
{
    volumes.iter().position(|v| is_seen_volume(v, class, name))
}

/// The place of the volume of a name that the class sees.
fn volume_place(volumes: &[VolumeRow], class: &AccessClass, name: &Name) -> Option<u8>
    requires { length volumes.now ≤ 16 }
    ensures { result ≡ visible_volume_place volumes.now class.now name.now }
{
    match first_volume(volumes, class, name) {
        Some(place) => Some(place as u8),
        None => None,
    }
}

/// A command on the guest at a place.
fn on_place(guests: &[GuestRow], class: &AccessClass, g: u8, command: Command) -> Verdict
    requires { HasPlaces command }
    ensures value { result ≡ on_row class.now (slice_get guests.now g) command }
    ensures places { MayApply result }
{
    match guests.get(usize::from(g)) {
        None => Verdict::NoSuchObject,
        Some(row) if same_class(&row.class, class) => Verdict::Granted(command),
        Some(_) => Verdict::Denied(Rule::Equal),
    }
}

/// A mount of a volume, where both have their classes.
fn on_rows(
    class: &AccessClass,
    write: bool,
    g: &GuestRow,
    v: &VolumeRow,
    command: Command,
) -> Verdict
    requires { HasPlaces command }
    ensures value { result ≡ on_rows class.now write (Some g.now) (Some v.now) command }
    ensures places { MayApply result }
{
    if !same_class(&g.class, class) {
        Verdict::Denied(Rule::Equal)
    } else if write && !same_class(&v.class, class) {
        Verdict::Denied(Rule::Write)
    } else {
        Verdict::Granted(command)
    }
}

fn on_mount(
    c: &Config,
    class: &AccessClass,
    g: Option<u8>,
    unit: u8,
    v: Option<u8>,
    write: bool,
) -> Verdict
    requires guest { IfSome g (λ g. g < 16) }
    requires unit { unit < 4 }
    ensures value { result ≡ on_mount c.now class.now g unit v write }
    ensures places { MayApply result }
{
    let (Some(g), Some(volume)) = (g, v) else {
        return Verdict::NoSuchObject;
    };
    let rows = (
        c.guests.as_slice().get(usize::from(g)),
        c.volumes.as_slice().get(usize::from(volume)),
    );
    let command = Command::MountAt(g, unit, Mount { volume, write });
    match rows {
        (Some(g), Some(v)) => on_rows(class, write, g, v, command),
        _ => Verdict::NoSuchObject,
    }
}

fn unless_empty(mount: Option<Mount>, verdict: Verdict) -> Verdict
    requires { MayApply verdict }
    ensures value { result ≡ unless_empty mount verdict }
    ensures places { MayApply result }
{
    match (mount, verdict) {
        (None, Verdict::Granted(_)) => Verdict::NoSuchObject,
        _ => verdict,
    }
}

fn on_dismount(c: &Config, s: &ServerState, class: &AccessClass, g: Option<u8>, unit: u8) -> Verdict
    requires guest { IfSome g (λ g. g < 16) }
    requires unit { unit < 4 }
    ensures value { result ≡ on_dismount c.now s.now class.now g unit }
    ensures places { MayApply result }
{
    let Some(g) = g else {
        return Verdict::NoSuchObject;
    };
    let mount = s.mounts[usize::from(g)][usize::from(unit)];
    let verdict = on_place(c.guests.as_slice(), class, g, Command::Dismount(g, unit));
    unless_empty(mount, verdict)
}

/// What is answered to a command at a terminal of the class.
#[tactic(auto, unfolding(crate::specs::Verdict::judged))]
fn judged(c: &Config, s: &ServerState, class: &AccessClass, asked: &NamedCommand) -> Verdict
    requires few_guests { length c.now.guests ≤ 16 }
    requires few_volumes { length c.now.volumes ≤ 16 }
    requires asked { IsAsked asked.now }
    ensures value { result ≡ judged c.now s.now class.now asked.now }
    ensures places { MayApply result }
{
    let guests = c.guests.as_slice();
    match asked {
        NamedCommand::Connect(vm) => match guest_place(guests, class, vm) {
            Some(g) => on_place(guests, class, g, Command::Connect(g)),
            None => Verdict::NoSuchObject,
        },
        NamedCommand::Start(vm) => match guest_place(guests, class, vm) {
            Some(g) => on_place(guests, class, g, Command::Start(g)),
            None => Verdict::NoSuchObject,
        },
        NamedCommand::Halt(vm) => match guest_place(guests, class, vm) {
            Some(g) => on_place(guests, class, g, Command::Halt(g)),
            None => Verdict::NoSuchObject,
        },
        NamedCommand::Mount(vm, unit, volume, write) => {
            let g = guest_place(guests, class, vm);
            let v = volume_place(c.volumes.as_slice(), class, volume);
            on_mount(c, class, g, *unit, v, *write)
        }
        NamedCommand::Dismount(vm, unit) => {
            on_dismount(c, s, class, guest_place(guests, class, vm), *unit)
        }
        NamedCommand::Show => Verdict::Granted(Command::Show),
    }
}

/// What is answered to a line at a terminal, by its place. A configuration has at most 16 guests and 16 volumes.
pub fn verdict(c: &Config, s: &ServerState, terminal: u8, text: &[u8]) -> Verdict
    requires guests { length c.now.guests ≤ 16 }
    requires volumes { length c.now.volumes ≤ 16 }
    requires terminal { terminal < length c.now.terminals }
    ensures value { result ≡ verdict_of c.now s.now terminal text.now }
    ensures places { MayApply result }
{
    let class = c.terminals.as_slice()[usize::from(terminal)].class;
    match asked_in(text) {
        Some(asked) => judged(c, s, &class, &asked),
        None => Verdict::BadCommand,
    }
}

/// The text of a reply.
pub fn reply(v: &Verdict) -> &'static str
    ensures { result.now ≡ reply_of v.now }
{
    match v {
        Verdict::Granted(_) => "OK",
        Verdict::BadCommand => "BAD COMMAND",
        Verdict::NoSuchObject => "NO SUCH OBJECT",
        Verdict::Denied(Rule::Equal) => "DENIED EQUAL",
        Verdict::Denied(Rule::Write) => "DENIED WRITE",
    }
}
