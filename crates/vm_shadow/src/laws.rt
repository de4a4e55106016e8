ghost use Rattle.vm_shadow.specs.Laws.{FindsFilledEntries, HearsTheGuest, MarksTheGuest, MirrorsTheGuest, MissesEmptyEntries, ProbesFilledEntries, ProbesTheGuest};

/// Each real entry is empty, or right for what the guest's tables have now.
pub fn the_tables_mirror_the_guests()
    ensures { MirrorsTheGuest }
{}

/// The machine answers an address as the guest's own tables do, or it misses, or it refuses where the guest has no place.
pub fn the_machine_hears_the_guest()
    ensures { HearsTheGuest }
{}

/// A miss where the guest has a place is of a page that isn't filled.
pub fn misses_are_of_empty_entries()
    ensures { MissesEmptyEntries }
{}

/// A page that is filled isn't missed.
pub fn filled_entries_are_found()
    ensures { FindsFilledEntries }
{}

/// A modify bit that is set for the machine is set for the guest.
pub fn modify_bits_are_the_guests()
    ensures { MarksTheGuest }
{}

/// What PROBE finds in the real tables is what it finds in the guest's.
pub fn probes_agree()
    ensures { ProbesTheGuest }
{}

/// PROBE finds a page that is filled.
pub fn probes_find_filled_entries()
    ensures { ProbesFilledEntries }
{}
