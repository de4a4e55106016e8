ghost use Rattle.vm_guest.specs.Laws.{IsIsolated};

/// What happens beyond a guest's memory and its real tables changes nothing of it.
pub fn guests_stand_by_themselves()
    ensures { IsIsolated }
{}
