ghost use Rattle.vm_simulation_laws.specs.Works.{MarksAreDropped, OneFrameIsDropped, RetiredStepsAreCounted, SwitchesRetell};
ghost use Rattle.vm_simulation_laws.specs.Misses.{EntriesAreValid, FilledEntriesStay, FilledPagesAreCounted, FillsKeepFilled, FoundPagesHaveEntries, MissesAreCounted, NewTablesHavePresent, ResetsKeepPresent, StepsKeepPresent, TouchesAreCounted, WritesAreMoves, WritesKeepPresent};

/// A page that has an entry has a valid one.
pub fn entries_are_valid()
    ensures { EntriesAreValid }
{}

/// New shadow page tables have what is present at first.
pub fn new_tables_have_present()
    ensures { NewTablesHavePresent }
{}

/// The touched pages that the machine may miss are counted.
pub fn touches_are_counted()
    ensures { TouchesAreCounted }
{}

/// A page that the machine misses is one of them.
pub fn a_miss_is_counted()
    ensures { MissesAreCounted }
{}

/// Once it is filled there is one less.
pub fn a_filled_page_is_one_less()
    ensures { FilledPagesAreCounted }
{}

/// To fill a page empties no other's entry.
pub fn fills_keep_filled()
    ensures { FillsKeepFilled }
{}

/// While entries are filled and none is emptied, what is present has entries, and no more pages may be missed.
pub fn filled_entries_stay()
    ensures { FilledEntriesStay }
{}

/// The pages that gave an instruction its bytes have entries, once they are filled.
pub fn found_pages_have_entries()
    ensures { FoundPagesHaveEntries }
{}

/// After a step what is present has entries.
pub fn steps_keep_present()
    ensures { StepsKeepPresent }
{}

/// After a write from outside what is present has entries.
pub fn writes_keep_present()
    ensures { WritesKeepPresent }
{}

/// After a reset what is present has entries.
pub fn resets_keep_present()
    ensures { ResetsKeepPresent }
{}

/// The kernel's writes alone are work under the registers of the last switch.
pub fn writes_are_moves()
    ensures { WritesAreMoves }
{}

/// What was read from one frame is dropped.
pub fn one_frame_is_dropped()
    ensures { OneFrameIsDropped }
{}

/// What was read from the frame of a modify bit that is set is dropped.
pub fn marks_are_dropped()
    ensures { MarksAreDropped }
{}

/// A switch is one to registers of page tables, new or the same.
pub fn switches_retell()
    ensures { SwitchesRetell }
{}

/// An instruction that the machine retired is counted, and what is present after it has entries.
pub fn retired_steps_are_counted()
    ensures { RetiredStepsAreCounted }
{}
