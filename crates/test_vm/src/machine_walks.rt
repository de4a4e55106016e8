use vax_arch::{Intent, Mode, Pte, may};
use vax_hw::{Hardware, World};

/// Why the machine has no place for an address: its code or a length refuses it, an entry isn't valid, or it lies beyond
/// memory.
#[derive(Clone, Copy, PartialEq, Eq)]
pub enum NoPlace {
    Refused,
    Absent,
    Beyond,
}

/// The entry at a physical place.
fn entry_at<H: Hardware>(machine: &H, place: u64) -> Result<Pte, NoPlace> {
    let end = 512 * u64::from(machine.pages());
    if place < end - 3 {
        Ok(Pte(machine.read_long(place as u32)))
    } else {
        Err(NoPlace::Beyond)
    }
}

fn system_entry<H: Hardware>(machine: &H, w: &World, page: u32) -> Result<Pte, NoPlace> {
    if page < w.slr {
        entry_at(machine, u64::from(w.sbr) + 4 * u64::from(page))
    } else {
        Err(NoPlace::Refused)
    }
}

fn process_entry<H: Hardware>(
    machine: &H,
    w: &World,
    base: u32,
    page: u32,
) -> Result<Pte, NoPlace> {
    let at = base.wrapping_add(page.wrapping_mul(4));
    if at / 0x4000_0000 != 2 {
        return Err(NoPlace::Refused);
    }
    let table = system_entry(machine, w, at / 512 % 0x20_0000)?;
    if !table.valid() {
        return Err(NoPlace::Absent);
    }
    entry_at(
        machine,
        512 * u64::from(table.frame()) + u64::from(at % 512),
    )
}

/// The machine's entry of an address's page, by the manual's rules, under the registers that are loaded.
pub fn real_entry<H: Hardware>(machine: &H, w: &World, va: u32) -> Result<Pte, NoPlace> {
    let page = va / 512 % 0x20_0000;
    match va / 0x4000_0000 {
        0 if page < w.p0lr => process_entry(machine, w, w.p0br, page),
        1 if w.p1lr <= page => process_entry(machine, w, w.p1br, page),
        2 => system_entry(machine, w, page),
        _ => Err(NoPlace::Refused),
    }
}

/// The place of an address in the machine, for a real mode.
pub fn real_walk<H: Hardware>(
    machine: &H,
    w: &World,
    va: u32,
    m: Mode,
    i: Intent,
) -> Result<u32, NoPlace> {
    let entry = real_entry(machine, w, va)?;
    if !may(entry.prot(), m, i) {
        Err(NoPlace::Refused)
    } else if !entry.valid() {
        Err(NoPlace::Absent)
    } else {
        Ok(512 * entry.frame() + va % 512)
    }
}
