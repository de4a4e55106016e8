ghost use Rattle.std.specs.Prelude.{◌≡◌, ◌≤◌, ◌<◌, ◌+◌, nat_le, sum_by, length, IfSome, [], ◌++◌, ◌==◌, map, bytes_eq, IfOk, OnOk};
ghost use Rattle.std.specs.List.{list_any, filter_map};
ghost use Rattle.sys_objects.specs.Rules.{IsFew, objects_of, lines_of, audit_line, same_class, may_connect, same_place, may_mount, first_broken, is_new};

use crate::{Audit, Config, GuestRow, Mount, PrinterRow, Terminal, VolumeRow};
use std::alloc::Global;
use vv_base::{Name, NoMemory};
use vv_class::{AccessClass, flows};

/// The name and the class of an object.
#[derive(Drop)]
pub struct Object {
    pub name: Name,
    pub class: AccessClass,
}

/// What has a name and a class.
pub trait Named: Drop {
    ghost use Rattle.sys_objects.specs.declared.rules.Object.{Object as Seen};

    ghost object_of: { Self → Seen };

    fn object(&self) -> Object
        ensures { result ≡ object_of self.now };
}

impl Named for Terminal {
    ghost use Rattle.sys_objects.specs.Rules.{terminal_object};

    ghost object_of = { terminal_object };

    fn object(&self) -> Object {
        Object {
            name: self.name.copied(),
            class: self.class,
        }
    }
}

impl Named for VolumeRow {
    ghost use Rattle.sys_objects.specs.Rules.{volume_object};

    ghost object_of = { volume_object };

    fn object(&self) -> Object {
        Object {
            name: self.name.copied(),
            class: self.class,
        }
    }
}

impl Named for PrinterRow {
    ghost use Rattle.sys_objects.specs.Rules.{printer_object};

    ghost object_of = { printer_object };

    fn object(&self) -> Object {
        Object {
            name: self.name.copied(),
            class: self.class,
        }
    }
}

impl Named for GuestRow {
    ghost use Rattle.sys_objects.specs.Rules.{guest_object};

    ghost object_of = { guest_object };

    fn object(&self) -> Object {
        Object {
            name: self.name.copied(),
            class: self.class,
        }
    }
}

fn push_objects<N: Named>(objects: &mut Vec<Object>, rows: &[N]) -> Result<(), NoMemory>
    ensures { OnOk result (objects.new.items ≡ objects.old.items ++ map N.object_of rows.now) }
{
    for row in rows {
        objects.push(row.object())?;
    }
    Ok(())
}

/// Terminals, volumes, printers and guests.
#[tactic(auto, using(crate::proofs::FewLaws::few_objects))]
pub fn objects(alloc: Global, c: &Config) -> Result<Vec<Object>, NoMemory>
    requires { IsFew c.now }
    ensures few { IfOk result (λ v. length v.items ≤ 96) }
    ensures value { IfOk result (λ v. v.items ≡ objects_of c.now) }
{
    let mut objects = Vec::new(alloc);
    push_objects(&mut objects, c.terminals.as_slice())?;
    push_objects(&mut objects, c.volumes.as_slice())?;
    push_objects(&mut objects, c.printers.as_slice())?;
    push_objects(&mut objects, c.guests.as_slice())?;
    Ok(objects)
}

fn push_terminal_lines(lines: &mut Vec<u8>, rows: &[Terminal]) -> Result<(), NoMemory>
    ensures { OnOk result (lines.new.items ≡ lines.old.items ++ map (λ t. t.line) rows.now) }
{
    lines.extend(rows.iter().map(|t| t.line))?;
    Ok(())
}

fn push_printer_lines(lines: &mut Vec<u8>, rows: &[PrinterRow]) -> Result<(), NoMemory>
    ensures { OnOk result (lines.new.items ≡ lines.old.items ++ map (λ p. p.line) rows.now) }
{
    lines.extend(rows.iter().map(|p| p.line))?;
    Ok(())
}

fn push_dumps(lines: &mut Vec<u8>, rows: &[GuestRow]) -> Result<(), NoMemory>
    ensures { OnOk result (lines.new.items ≡ lines.old.items ++ filter_map (λ g. g.dump) rows.now) }
{
    lines.extend(rows.iter().filter_map(|g| g.dump))?;
    Ok(())
}

fn push_audit_line(lines: &mut Vec<u8>, audit: Option<Audit>) -> Result<(), NoMemory>
    ensures { OnOk result (lines.new.items ≡ lines.old.items ++ audit_line audit) }
{
    if let Some(audit) = audit {
        lines.push(audit.line)?;
    }
    Ok(())
}

/// The most lines: of 32 terminals, 32 printers, 16 dumps and the audit.
const MOST_LINES: usize = 81;

/// The lines of terminals, printers, dumps and the audit. All memory is taken at once.
#[tactic(auto, using(crate::proofs::FewLaws::few_lines))]
fn lines(alloc: Global, c: &Config) -> Result<Vec<u8>, NoMemory>
    requires { IsFew c.now }
    ensures few { IfOk result (λ v. length v.items ≤ 81) }
    ensures value { IfOk result (λ v. v.items ≡ lines_of c.now) }
{
    let mut lines = Vec::with_capacity(alloc, MOST_LINES)?;
    push_terminal_lines(&mut lines, c.terminals.as_slice())?;
    push_printer_lines(&mut lines, c.printers.as_slice())?;
    push_dumps(&mut lines, c.guests.as_slice())?;
    push_audit_line(&mut lines, c.audit)?;
    Ok(lines)
}

/// What is asked of an element, given those before it.
pub trait Rule<T> {
    ghost use Rattle.std.specs.Prelude.{List, Bool};

    ghost holds: { Self → List T → T → Bool };

    fn holds(&self, seen: &[T], x: &T) -> bool
        ensures { result ≡ holds self.now seen.now x.now };
}

/// The place of the first element for which a rule doesn't hold.
pub fn first_broken<T, R: Rule<T>>(rule: &R, rows: &[T]) -> Option<usize>
    ensures within { IfSome result (λ i. i < length rows.now) }
    ensures value { result ≡ first_broken (R.holds rule.now) [] rows.now }
{
    for i in 0..rows.len() {
        if !rule.holds(&rows[..i], &rows[i]) {
            return Some(i);
        }
    }
    None
}

fn is_named(seen: &[Object], x: &Object) -> bool
    ensures { result ≡ list_any (λ y. bytes_eq x.now.name y.name) seen.now }
{
    seen.iter().any(|y| x.name.bytes() == y.name.bytes())
}

/// Rule 11: a name occurs once.
#[derive(Clone, Copy)]
pub struct NewName;

impl Rule<Object> for NewName {
    ghost use Rattle.std.specs.Prelude.{bytes_eq};
    ghost use Rattle.sys_objects.specs.Rules.{is_new};
    ghost use Rattle.sys_objects.specs.declared.rules.Object.{Object as Seen};

    ghost holds = { λ rule. is_new (λ (x y : Seen). bytes_eq x.name y.name) };

    fn holds(&self, seen: &[Object], x: &Object) -> bool {
        !is_named(seen, x)
    }
}

fn is_taken(seen: &[u8], x: u8) -> bool
    ensures { result ≡ list_any (λ y. x == y) seen.now }
{
    seen.iter().any(|y| x == *y)
}

/// Rule 12: a line occurs once.
#[derive(Clone, Copy)]
struct NewLine;

impl Rule<u8> for NewLine {
    ghost use Rattle.std.specs.Prelude.{ℕ, ◌==◌};
    ghost use Rattle.sys_objects.specs.Rules.{is_new};

    ghost holds = { λ rule. is_new (λ (x y : ℕ). x == y) };

    fn holds(&self, seen: &[u8], x: &u8) -> bool {
        !is_taken(seen, *x)
    }
}

/// The first line that comes before.
pub fn bad_line(alloc: Global, c: &Config) -> Result<Option<usize>, NoMemory>
    requires { IsFew c.now }
    ensures within { IfOk result (λ place. IfSome place (λ i. i < 81)) }
    ensures value { IfOk result (λ place. place ≡ first_broken (is_new (λ x y. x == y)) [] (lines_of c.now)) }
{
    let lines = lines(alloc, c)?;
    Ok(first_broken(&NewLine, lines.as_slice()))
}

fn is_in_drive(seen: &[VolumeRow], x: &VolumeRow) -> bool
    ensures { result ≡ list_any (λ y. x.now.drive == y.drive) seen.now }
{
    seen.iter().any(|y| x.drive == y.drive)
}

/// Rule 13: a drive holds one volume.
#[derive(Clone, Copy)]
pub struct NewDrive;

impl Rule<VolumeRow> for NewDrive {
    ghost use Rattle.std.specs.Prelude.{◌==◌};
    ghost use Rattle.sys_objects.specs.Rules.{is_new};
    ghost use Rattle.sys_objects.specs.declared.records.VolumeRow.{VolumeRow as Row};

    ghost holds = { λ rule. is_new (λ (x y : Row). x.drive == y.drive) };

    fn holds(&self, seen: &[VolumeRow], x: &VolumeRow) -> bool {
        !is_in_drive(seen, x)
    }
}

/// Whether two classes are one.
pub fn same_class(a: &AccessClass, b: &AccessClass) -> bool
    ensures { result ≡ same_class a.now b.now }
{
    a.secrecy == b.secrecy
        && a.secrecy_cats == b.secrecy_cats
        && a.integrity == b.integrity
        && a.integrity_cats == b.integrity_cats
}

/// Rule 14: a guest prints on one of these, into which it flows.
#[derive(Clone, Copy)]
pub struct Prints<'a>(pub &'a [PrinterRow]);

impl<'a> Rule<GuestRow> for Prints<'a> {
    ghost use Rattle.sys_objects.specs.Rules.{may_print};

    ghost holds = { λ rule seen g. may_print rule.0.now g.class g.printer };

    fn holds(&self, seen: &[GuestRow], g: &GuestRow) -> bool {
        match g.printer {
            Some(k) => match self.0.get(usize::from(k)) {
                Some(printer) => flows(&g.class, &printer.class),
                None => false,
            },
            None => true,
        }
    }
}

fn may_connect(terminals: &[Terminal], class: &AccessClass, place: Option<u8>) -> bool
    ensures { result ≡ may_connect terminals.now class.now place }
{
    match place {
        Some(k) => match terminals.get(usize::from(k)) {
            Some(terminal) => same_class(&terminal.class, class),
            None => false,
        },
        None => true,
    }
}

fn same_place(a: Option<u8>, b: Option<u8>) -> bool
    ensures { result ≡ same_place a b }
{
    match (a, b) {
        (Some(j), Some(k)) => j == k,
        _ => false,
    }
}

fn is_connected(seen: &[GuestRow], console: Option<u8>) -> bool
    ensures { result ≡ list_any (λ h. same_place console h.console) seen.now }
{
    seen.iter().any(|h| same_place(console, h.console))
}

/// Rule 15: a guest's console is one of these, of its class, and no other's.
#[derive(Clone, Copy)]
pub struct Connects<'a>(pub &'a [Terminal]);

impl<'a> Rule<GuestRow> for Connects<'a> {
    ghost use Rattle.std.specs.Prelude.{◌&&◌};
    ghost use Rattle.sys_objects.specs.Rules.{is_new, may_connect, same_place};
    ghost use Rattle.sys_objects.specs.declared.records.GuestRow.{GuestRow as Row};

    ghost holds = { λ rule seen g. may_connect rule.0.now g.class g.console && is_new (λ (x y : Row). same_place x.console y.console) seen g };

    fn holds(&self, seen: &[GuestRow], g: &GuestRow) -> bool {
        may_connect(self.0, &g.class, g.console) && !is_connected(seen, g.console)
    }
}

fn may_mount(volumes: &[VolumeRow], class: &AccessClass, mount: Option<Mount>) -> bool
    ensures { result ≡ may_mount volumes.now class.now mount }
{
    match mount {
        Some(m) => match volumes.get(usize::from(m.volume)) {
            Some(volume) => {
                flows(&volume.class, class) && (!m.write || same_class(&volume.class, class))
            }
            None => false,
        },
        None => true,
    }
}

/// Rule 16: a guest mounts only some of these, which flow into it.
#[derive(Clone, Copy)]
pub struct Mounts<'a>(pub &'a [VolumeRow]);

impl<'a> Rule<GuestRow> for Mounts<'a> {
    ghost use Rattle.std.specs.List.{list_all};
    ghost use Rattle.sys_objects.specs.Rules.{may_mount};

    ghost holds = { λ rule seen g. list_all (may_mount rule.0.now g.class) g.mounts };

    fn holds(&self, seen: &[GuestRow], g: &GuestRow) -> bool {
        g.mounts.iter().all(|m| may_mount(self.0, &g.class, *m))
    }
}

/// Rule 17: all flows into the audit.
#[derive(Clone, Copy)]
pub struct Audited(pub Option<Audit>);

impl Rule<Object> for Audited {
    ghost use Rattle.std.specs.Prelude.{true};
    ghost use Rattle.std.specs.Option.{option_map_or};
    ghost use Rattle.vv_class.specs.Class.{does_flow};

    ghost holds = { λ rule seen x. option_map_or (λ a. does_flow x.class a.class) rule.0 true };

    fn holds(&self, seen: &[Object], x: &Object) -> bool {
        match self.0 {
            Some(audit) => flows(&x.class, &audit.class),
            None => true,
        }
    }
}

/// Rule 18.
pub fn bad_pages(guests: &[GuestRow]) -> Option<usize>
    ensures within { IfSome result (λ i. i < length guests.now) }
    ensures value { result ≡ first_broken (λ seen g. nat_le (sum_by (λ h. h.pages) seen + g.pages) 16384) [] guests.now }
{
    let mut pages: u64 = 0;
    for i in 0..guests.len() {
        pages += u64::from(guests[i].pages);
        if pages > 16_384 {
            return Some(i);
        }
    }
    None
}
