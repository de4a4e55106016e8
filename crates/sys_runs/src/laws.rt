ghost use Rattle.sys_runs.specs.Laws.{TouchesNoDrive};

/// A run without volumes leaves every drive as it was.
pub fn no_volumes_touch_no_drive()
    ensures { TouchesNoDrive }
{}
