ghost use Rattle.vvmm_laws.specs.Others.{LeavesOthers};

/// A command leaves the lines and drives that it doesn't have as they are, whatever it answers: so nothing is lost where they
/// don't exist.
pub fn other_devices_are_left()
    ensures { LeavesOthers }
{}
