ghost use Rattle.vvmm_laws.specs.Runs.{AuditsRuns};

/// What the audit line of a run is shown is an audit.
pub fn the_audit_line_of_a_run_is_an_audit()
    ensures { AuditsRuns }
{}
