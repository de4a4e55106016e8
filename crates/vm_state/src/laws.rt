ghost use Rattle.vm_state.specs.Laws.{FindsOneEntry, ShowsFew, StaysStopped, StepsCount, StepsKeep};

/// A guest shows at most 14 bytes a step.
pub fn steps_show_few()
    ensures { ShowsFew }
{}

/// A guest that has stopped stays as it is.
pub fn stopped_guests_stay()
    ensures { StaysStopped }
{}

/// A step keeps the size of memory, whether there are modify faults, and that every register has an allowed value.
pub fn steps_keep_allowed_registers()
    ensures { StepsKeep }
{}

/// A step of a guest that runs counts 1, whatever it is.
pub fn steps_are_counted()
    ensures { StepsCount }
{}

/// Where two modes find a frame for an address, it is the same byte by the same entries.
pub fn walks_find_one_entry()
    ensures { FindsOneEntry }
{}
