ghost use Rattle.vvmm_laws.specs.Reach.{ClosedSetsAreApart, DependsOnlyOnReached, UnnamedIsApart};

/// Into a set of objects no edge leads from outside. Then two inputs that differ in the inputs of objects outside alone
/// give the same on the device of each object of the set.
pub fn closed_sets_are_apart()
    ensures { ClosedSetsAreApart }
{}

/// An object is not reached from another. Then two inputs that differ in the other's inputs alone give the same on its
/// device: a terminal's, a printer's or the audit's line, a volume's drive, a guest's dump.
pub fn devices_depend_on_what_reaches()
    ensures { DependsOnlyOnReached }
{}

/// The rows of `reach` don't name an object among those reached from another. Then two inputs that differ in the other's inputs
/// alone give the same on the object's device.
pub fn what_reach_does_not_name_is_apart()
    ensures { UnnamedIsApart }
{}
