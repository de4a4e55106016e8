ghost use Rattle.std.specs.Prelude.{◌≡◌, ◌≤◌, ◌+◌, ◌*◌, MatchBool, Ok, drop, length, map, IfOk};
ghost use Rattle.std.specs.List.{sum_by};
ghost use Rattle.sys_config.specs.Config.{config_of};
ghost use Rattle.sys_objects.specs.Condition.{IsConfig};
ghost use Rattle.sys_script.specs.Events.{AreEvents};
ghost use Rattle.sys_snap.specs.Held.{HoldsMoment, snapshot_moment};
ghost use Rattle.sys_snap.specs.Snap.{IsMoment, IsSnap};
ghost use Rattle.sys_state.specs.Run.{Moment};
ghost use Rattle.vvmm_files.specs.Fetches.{FetchesAudit, FetchesConfig, FetchesExtend, FetchesFile, FetchesImages, FetchesLive, FetchesResume, FetchesRun, FetchesSave, FetchesScript, FetchesSnap, FetchesText, MeansSnap};
ghost use Rattle.vvmm_files.specs.Files.{FitsSnap, IsTooLarge};

use crate::stop::CommandFault;
use crate::words::{AuditOrder, LiveOrder, ResumeOrder, RunOrder};
use std::alloc::Global;
use sys_config::read_config;
use sys_objects::{Config, ConfigError, GuestRow, VolumeRow};
use sys_script::{Event, ScriptError, read_script};
use sys_snap::{Snap, SnapError, read_snap};
use vv_base::{FileName, get_u32};
use vv_io::{Shelf, ShelfFault};

/// The bytes of a file.
pub fn fetch_file<S: Shelf>(
    alloc: Global,
    shelf: &mut S,
    name: &FileName,
) -> Result<Vec<u8>, CommandFault>
    ensures fetches { FetchesFile (S.files shelf.old) name.now (S.faults shelf.old) (S.faults shelf.new) result }
    ensures files { S.files shelf.new ≡ S.files shelf.old }
{
    match shelf.fetch(alloc, name) {
        Ok(bytes) => Ok(bytes),
        Err(ShelfFault::Missing) => Err(CommandFault::Missing(name.copied())),
        Err(ShelfFault::TooLong) => Err(CommandFault::TooLong(name.copied())),
        Err(ShelfFault::Failed) => Err(CommandFault::ShelfFault),
        Err(ShelfFault::NoMemory) => Err(CommandFault::NoMemory),
    }
}

/// A configuration, and the text that stands for it.
#[derive(Drop)]
pub struct Read {
    pub text: Vec<u8>,
    pub config: Config,
}

/// The configuration of a file, and its text.
fn fetch_text<S: Shelf>(alloc: Global, shelf: &mut S, name: &FileName) -> Result<Read, CommandFault>
    ensures fetches { FetchesText (S.files shelf.old) name.now (S.faults shelf.old) (S.faults shelf.new) result }
    ensures files { S.files shelf.new ≡ S.files shelf.old }
    ensures accepted { IfOk result (λ x. IsConfig x.config) }
{
    let text = fetch_file(alloc, shelf, name)?;
    match read_config(alloc, text.as_slice()) {
        Ok(config) => Ok(Read { text, config }),
        Err(ConfigError::Fault(fault)) => Err(CommandFault::Config(fault)),
        Err(ConfigError::NoMemory) => Err(CommandFault::NoMemory),
    }
}

/// The configuration of a file.
pub fn fetch_config<S: Shelf>(
    alloc: Global,
    shelf: &mut S,
    name: &FileName,
) -> Result<Config, CommandFault>
    ensures fetches { FetchesConfig (S.files shelf.old) name.now (S.faults shelf.old) (S.faults shelf.new) result }
    ensures files { S.files shelf.new ≡ S.files shelf.old }
    ensures accepted { IfOk result (λ c. IsConfig c) }
{
    let read = fetch_text(alloc, shelf, name)?;
    Ok(read.config)
}

/// The events of a file.
fn fetch_script<S: Shelf>(
    alloc: Global,
    shelf: &mut S,
    name: &FileName,
) -> Result<Vec<Event>, CommandFault>
    ensures fetches { FetchesScript (S.files shelf.old) name.now (S.faults shelf.old) (S.faults shelf.new) result }
    ensures files { S.files shelf.new ≡ S.files shelf.old }
    ensures ordered { IfOk result (λ es. AreEvents es.items) }
{
    let text = fetch_file(alloc, shelf, name)?;
    match read_script(alloc, text.as_slice()) {
        Ok(events) => Ok(events),
        Err(ScriptError::Fault(fault)) => Err(CommandFault::Script(fault)),
        Err(ScriptError::NoMemory) => Err(CommandFault::NoMemory),
    }
}

/// The images of guests, in their order.
fn fetch_images<S: Shelf>(
    alloc: Global,
    shelf: &mut S,
    guests: &[GuestRow],
) -> Result<Vec<Vec<u8>>, CommandFault>
    ensures fetches { FetchesImages (S.files shelf.old) guests.now (S.faults shelf.old) (S.faults shelf.new) result }
    ensures files { S.files shelf.new ≡ S.files shelf.old }
{
    let mut images = Vec::new(alloc);
    for guest in guests {
        let image = fetch_file(alloc, shelf, &guest.image)?;
        images.push(image)?;
    }
    Ok(images)
}

/// What a run is made of.
#[derive(Drop)]
pub struct Inputs {
    pub config: Config,
    pub events: Vec<Event>,
    pub images: Vec<Vec<u8>>,
}

/// Fetches the configuration, the script, and the images in the order of the guests. What is fetched first is read first, and the
/// first that fails is answered.
pub fn fetch_run<S: Shelf>(
    alloc: Global,
    shelf: &mut S,
    order: &RunOrder,
) -> Result<Inputs, CommandFault>
    ensures fetches { FetchesRun (S.files shelf.old) (record { config = order.now.config; script = order.now.script; rounds = order.now.rounds }) (S.faults shelf.old) (S.faults shelf.new) result }
    ensures accepted { IfOk result (λ x. IsConfig x.config) }
    ensures ordered { IfOk result (λ x. AreEvents x.events.items) }
    ensures images { IfOk result (λ x. length x.images.items ≡ length x.config.guests) }
{
    let config = fetch_config(alloc, shelf, &order.config)?;
    let events = fetch_script(alloc, shelf, &order.script)?;
    let images = fetch_images(alloc, shelf, config.guests.as_slice())?;
    Ok(Inputs {
        config,
        events,
        images,
    })
}

/// What a run that is saved is made of.
#[derive(Drop)]
pub struct InputsToSave {
    /// What the file of the configuration has.
    pub text: Vec<u8>,
    pub inputs: Inputs,
}

/// The pages of all guests' memories.
fn all_pages(rows: &[GuestRow]) -> u32
    requires { sum_by (λ row. row.pages) rows.now ≤ 16384 }
    ensures { result ≡ sum_by (λ row. row.pages) rows.now }
{
    rows.iter().map(|row| row.pages).sum()
}

/// The blocks of all volumes.
fn all_blocks(rows: &[VolumeRow]) -> u32
    requires { sum_by (λ row. row.blocks) rows.now ≤ 32768 }
    ensures { result ≡ sum_by (λ row. row.blocks) rows.now }
{
    rows.iter().map(|row| row.blocks).sum()
}

/// Whether a snapshot can be written with this text: pages and blocks have at most 16,000,000 bytes, and the text at most
/// 262,144.
fn fits_snap(text: &[u8], config: &Config) -> bool
    requires { IsConfig config.now }
    ensures { MatchBool result (FitsSnap text.now config.now) (IsTooLarge text.now config.now) }
{
    let pages = all_pages(config.guests.as_slice());
    let blocks = all_blocks(config.volumes.as_slice());
    512 * (pages + blocks) <= 16_000_000 && text.len() <= 262_144
}

/// Fetches what `run` does, and keeps the text of the configuration. Whether a snapshot would be too large is answered before the
/// first image is fetched.
pub fn fetch_to_save<S: Shelf>(
    alloc: Global,
    shelf: &mut S,
    order: &RunOrder,
) -> Result<InputsToSave, CommandFault>
    ensures fetches { FetchesSave (S.files shelf.old) (record { config = order.now.config; script = order.now.script; rounds = order.now.rounds }) (S.faults shelf.old) (S.faults shelf.new) result }
    ensures means { IfOk result (λ x. config_of x.text.items ≡ Ok x.inputs.config) }
    ensures short { IfOk result (λ x. length x.text.items ≤ 262144) }
    ensures accepted { IfOk result (λ x. IsConfig x.inputs.config) }
    ensures ordered { IfOk result (λ x. AreEvents x.inputs.events.items) }
    ensures images { IfOk result (λ x. length x.inputs.images.items ≡ length x.inputs.config.guests) }
{
    let read = fetch_text(alloc, shelf, &order.config)?;
    let events = fetch_script(alloc, shelf, &order.script)?;
    if !fits_snap(read.text.as_slice(), &read.config) {
        return Err(CommandFault::SnapSize);
    }
    let images = fetch_images(alloc, shelf, read.config.guests.as_slice())?;
    Ok(InputsToSave {
        text: read.text,
        inputs: Inputs {
            config: read.config,
            events,
            images,
        },
    })
}

/// The snapshot that bytes are.
fn snap_of(alloc: Global, bytes: &[u8]) -> Result<Snap, CommandFault>
    requires { length bytes.now ≤ 16777216 }
    ensures means { MeansSnap bytes.now result }
    ensures held { IfOk result (λ snap. HoldsMoment snap) }
{
    match read_snap(alloc, bytes) {
        Ok(snap) => Ok(snap),
        Err(SnapError::Fault(fault)) => Err(CommandFault::Snap(fault)),
        Err(SnapError::NoMemory) => Err(CommandFault::NoMemory),
    }
}

/// The bytes of a snapshot from its text on.
fn from_text(bytes: &[u8]) -> &[u8]
    requires { 12 ≤ length bytes.now }
    ensures { result.now ≡ drop 12 bytes.now }
{
    bytes.split_at(12).1
}

/// The configuration's text in the bytes of a snapshot: its length stands before it.
fn text_of(bytes: &[u8]) -> &[u8]
    requires { (m : Moment) × IsSnap bytes.now m }
    ensures { (m : Moment) (is : IsSnap bytes.now m) → result.now ≡ is.text }
{
    let length = get_u32(bytes, 8) as usize;
    let rest = from_text(bytes);
    rest.split_at(length).0
}

/// A snapshot, and the text that it has.
#[derive(Drop)]
pub struct ReadSnap {
    pub text: Vec<u8>,
    pub snap: Snap,
}

/// The snapshot of a file, and its text.
fn fetch_snap<S: Shelf>(
    alloc: Global,
    shelf: &mut S,
    name: &FileName,
) -> Result<ReadSnap, CommandFault>
    ensures fetches { FetchesSnap (S.files shelf.old) name.now (S.faults shelf.old) (S.faults shelf.new) result }
    ensures files { S.files shelf.new ≡ S.files shelf.old }
    ensures held { IfOk result (λ x. HoldsMoment x.snap) }
{
    let bytes = fetch_file(alloc, shelf, name)?;
    let snap = snap_of(alloc, bytes.as_slice())?;
    let text = Vec::from_slice(alloc, text_of(bytes.as_slice()))?;
    Ok(ReadSnap { text, snap })
}

/// What a run that goes on is made of.
#[derive(Drop)]
pub struct InputsToResume {
    /// The text that the snapshot has.
    pub text: Vec<u8>,
    pub snap: Snap,
    pub events: Vec<Event>,
}

/// Fetches the snapshot, and then the script.
pub fn fetch_to_resume<S: Shelf>(
    alloc: Global,
    shelf: &mut S,
    order: &ResumeOrder,
) -> Result<InputsToResume, CommandFault>
    ensures fetches { FetchesResume (S.files shelf.old) (record { snap = order.now.snap; script = order.now.script; rounds = order.now.rounds }) (S.faults shelf.old) (S.faults shelf.new) result }
    ensures held { IfOk result (λ x. HoldsMoment x.snap) }
    ensures moment { IfOk result (λ x. IsMoment (snapshot_moment x.snap)) }
    ensures means { IfOk result (λ x. config_of x.text.items ≡ Ok x.snap.config) }
    ensures short { IfOk result (λ x. length x.text.items ≤ 262144) }
    ensures ordered { IfOk result (λ x. AreEvents x.events.items) }
{
    let read = fetch_snap(alloc, shelf, &order.snap)?;
    let events = fetch_script(alloc, shelf, &order.script)?;
    Ok(InputsToResume {
        text: read.text,
        snap: read.snap,
        events,
    })
}

/// Fetches what `resume` does. That no snapshot can have as many rounds as there would be is answered after that.
pub fn fetch_to_extend<S: Shelf>(
    alloc: Global,
    shelf: &mut S,
    order: &ResumeOrder,
) -> Result<InputsToResume, CommandFault>
    ensures fetches { FetchesExtend (S.files shelf.old) (record { snap = order.now.snap; script = order.now.script; rounds = order.now.rounds }) (S.faults shelf.old) (S.faults shelf.new) result }
    ensures held { IfOk result (λ x. HoldsMoment x.snap) }
    ensures moment { IfOk result (λ x. IsMoment (snapshot_moment x.snap)) }
    ensures means { IfOk result (λ x. config_of x.text.items ≡ Ok x.snap.config) }
    ensures short { IfOk result (λ x. length x.text.items ≤ 262144) }
    ensures ordered { IfOk result (λ x. AreEvents x.events.items) }
    ensures few { IfOk result (λ x. x.snap.round + order.now.rounds ≤ 1000000) }
{
    let inputs = fetch_to_resume(alloc, shelf, order)?;
    if order.rounds > 1_000_000 - inputs.snap.round {
        return Err(CommandFault::SnapSize);
    }
    Ok(inputs)
}

/// What a run that is typed is made of.
#[derive(Drop)]
pub struct InputsToLive {
    pub config: Config,
    pub images: Vec<Vec<u8>>,
}

/// Fetches the configuration, and then the images in the order of the guests.
pub fn fetch_to_live<S: Shelf>(
    alloc: Global,
    shelf: &mut S,
    live: &LiveOrder,
) -> Result<InputsToLive, CommandFault>
    ensures fetches { FetchesLive (S.files shelf.old) (record { config = live.now.config; rounds = live.now.rounds }) (S.faults shelf.old) (S.faults shelf.new) result }
    ensures accepted { IfOk result (λ x. IsConfig x.config) }
    ensures images { IfOk result (λ x. length x.images.items ≡ length x.config.guests) }
{
    let config = fetch_config(alloc, shelf, &live.config)?;
    let images = fetch_images(alloc, shelf, config.guests.as_slice())?;
    Ok(InputsToLive { config, images })
}

/// What is checked by an audit.
#[derive(Drop)]
pub struct Recorded {
    pub config: Config,
    /// What an audit line may have been shown.
    pub bytes: Vec<u8>,
}

/// Fetches the configuration, and then what was recorded.
pub fn fetch_audit<S: Shelf>(
    alloc: Global,
    shelf: &mut S,
    audit: &AuditOrder,
) -> Result<Recorded, CommandFault>
    ensures fetches { FetchesAudit (S.files shelf.old) (record { config = audit.now.config; recorded = audit.now.recorded }) (S.faults shelf.old) (S.faults shelf.new) result }
    ensures accepted { IfOk result (λ x. IsConfig x.config) }
    ensures within { IfOk result (λ x. length x.bytes.items ≤ 16777216) }
{
    let config = fetch_config(alloc, shelf, &audit.config)?;
    let bytes = fetch_file(alloc, shelf, &audit.recorded)?;
    Ok(Recorded { config, bytes })
}
