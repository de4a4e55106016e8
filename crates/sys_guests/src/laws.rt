ghost use Rattle.sys_guests.specs.Layout.{LiesApart};

/// Guests that are laid out have memories and tables of their own.
pub fn guests_lie_apart()
    ensures { LiesApart }
{}
