ghost use Rattle.std.specs.Prelude.{◌≡◌, ◌≢◌, ◌≤◌, ◌<◌, ◌+◌, ◌*◌, All, IfSome, filter_map, length};
ghost use Rattle.std.specs.List.{AllPairs};
ghost use Rattle.sys_guests.specs.Layout.{guests_in};
ghost use Rattle.sys_devices.specs.Shows.{Shows, only_on};
ghost use Rattle.sys_objects.specs.Condition.{IsGuest};
ghost use Rattle.sys_state.specs.Bytes.{dump_on};
ghost use Rattle.sys_state.specs.Dump.{dump_of};
ghost use Rattle.vm_guest.specs.Kept.{IsShadowedIn};
ghost use Rattle.vm_state.specs.Partition.{guest_of};

use crate::dumps::dump;
use sys_devices::Marks;
use sys_objects::GuestRow;
use vax_hw::Hardware;
use vm_guest::Guest;
use vm_state::GuestState;
use vv_base::Name;
use vv_io::Lines;

/// Puts a guest's dump on a line, if there is one and it isn't marked; a fault marks it.
fn dump_at<H: Hardware, L: Lines>(
    marks: &mut Marks,
    lines: &mut L,
    place: Option<u8>,
    machine: &H,
    name: &Name,
    guest: &GuestState,
)
    requires there { IfSome place (λ line. line < 32) }
    requires inside { 512 * guest.now.base + 512 * guest.now.pages ≤ length (H.machine machine.now).memory }
    requires pages { guest.now.base + guest.now.pages ≤ 65536 }
    ensures { Shows marks.old marks.new (L.lines lines.old) (L.lines lines.new)
        (only_on place (dump_of name.now (guest_of (H.machine machine.now).memory guest.now))) }
{
    if let Some(line) = place {
        let k = line as usize;
        if !marks[k] {
            marks[k] = dump(machine, name, guest, lines, line).is_err();
        }
    }
}

/// Puts each guest's dump on its line, in order; a line that is marked gets none, and one that fails is marked.
pub fn dump_all<H: Hardware, L: Lines>(
    machine: &H,
    rows: &[GuestRow],
    guests: &[Guest],
    marks: &mut Marks,
    lines: &mut L,
)
    requires guests { All (λ k. IsShadowedIn (H.machine machine.now).memory k) guests.now }
    requires beside { length guests.now ≡ length rows.now }
    requires rows { All IsGuest rows.now }
    requires apart { AllPairs (λ x y. x ≢ y) (filter_map (λ row. row.dump) rows.now) }
    ensures { Shows marks.old marks.new (L.lines lines.old) (L.lines lines.new) (λ k. dump_on k rows.now (guests_in (H.machine machine.now).memory guests.now)) }
{
    for (place, row) in rows.iter().enumerate() {
        let guest = &guests[place];
        dump_at(marks, lines, row.dump, machine, &row.name, guest.state());
    }
}
