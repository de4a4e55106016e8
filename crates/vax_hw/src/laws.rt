ghost use Rattle.vax_hw.specs.Machine.{ShowsTheRealStatusWord};
ghost use Rattle.vax_hw.specs.RealLaws.{RunsGoOn};

/// The status word of the PSL that MOVPSL stores is that of the real PSL.
pub fn movpsl_shows_the_real_status_word()
    ensures { ShowsTheRealStatusWord }
{}

/// A run with the sum of two budgets is one with the first and, where that used its budget, one with the second; where
/// it didn't, it ends alike with each greater budget.
pub fn runs_go_on()
    ensures { RunsGoOn }
{}
