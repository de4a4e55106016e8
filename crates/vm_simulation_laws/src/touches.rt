ghost use Rattle.vm_simulation_laws.specs.Touched.{MissesAreTouched, RetiredPagesAreFilled, StoppedPagesAreFilled};

/// A page that the machine missed isn't filled, and the guest's instruction touches it.
pub fn misses_are_touched()
    ensures { MissesAreTouched }
{}

/// After an instruction that the machine retired every page that it touched is filled, and none lacked.
pub fn retired_pages_are_filled()
    ensures { RetiredPagesAreFilled }
{}

/// Where the machine stopped before an instruction, and no page is to be filled for it, the pages that gave it bytes are
/// filled.
pub fn stopped_pages_are_filled()
    ensures { StoppedPagesAreFilled }
{}
