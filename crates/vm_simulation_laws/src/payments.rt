ghost use Rattle.vm_simulation_laws.specs.Paid.{FillsAreTries, NothingIsOwed, NothingIsPaid, NothingIsTried, PaymentsFollow, StepsArePaid, StepsSettle, TouchesFollow, TriesAreOwed, TriesFollow};
ghost use Rattle.vm_simulation_laws.specs.Runs.{RunsArePaid};

/// Tries of an instruction that follow one another are tries of it.
pub fn tries_follow()
    ensures { TriesFollow }
{}

/// First touches that count misses, and then others, count both.
pub fn payments_follow()
    ensures { PaymentsFollow }
{}

/// Where nothing is missed and no entry is emptied, nothing counts in a try.
pub fn nothing_is_tried()
    ensures { NothingIsTried }
{}

/// Nor is a miss to be counted.
pub fn nothing_is_paid()
    ensures { NothingIsPaid }
{}

/// A touched page that was missed and is filled is a try.
pub fn fills_are_tries()
    ensures { FillsAreTries }
{}

/// A step counts the misses of its tries.
pub fn steps_are_paid()
    ensures { StepsArePaid }
{}

/// First touches of steps that follow one another.
pub fn touches_follow()
    ensures { TouchesFollow }
{}

/// A run of the machine misses nothing in the steps that it makes, and a touched page where it stops for one.
pub fn runs_are_paid()
    ensures { RunsArePaid }
{}

/// No miss is outstanding as a step begins.
pub fn nothing_is_owed()
    ensures { NothingIsOwed }
{}

/// The misses of a try are outstanding after it.
pub fn tries_are_owed()
    ensures { TriesAreOwed }
{}

/// The step that is made then counts the outstanding misses.
pub fn steps_settle()
    ensures { StepsSettle }
{}
