ghost use Rattle.sys_flow.specs.Report.{IsReport};
ghost use Rattle.sys_runs.specs.Besides.{MissesArePaid};
ghost use Rattle.vvmm_call.specs.Answer.{AreCounts, FollowsSolo, FollowsTrace, IsDrawing, IsMigrated};
ghost use Rattle.vvmm_laws.specs.Alone.{RunsAlone};
ghost use Rattle.vvmm_laws.specs.Complete.{CompletesAudit, CompletesConfig, CompletesFile, CompletesImage, CompletesLoad, CompletesRun, LimitsLoad, TellsAuditLine, TellsAuditMissing, TellsAuditRule, TellsAuditTooLong, TellsConfigMissing, TellsConfigRule, TellsConfigTooLong, TellsFileMissing, TellsFileRefused, TellsFileTooLong, TellsImageLineFault, TellsImageMisfit, TellsImageMissing, TellsImageTooLong, TellsLoadLineFault, TellsRunDriveFault, TellsRunImage, TellsRunLine, TellsRunLineFault, TellsRunMissing, TellsRunRule, TellsRunSize, TellsRunTooLong};

/// The lines' bytes of `solo` are those of the guest that steps alone on its private virtual VAX.
pub fn a_guest_runs_alone()
    ensures { RunsAlone }
{}

/// A held image within the limit that fits, and no risen count, give `Done`, or `NoMemory` before anything is shown.
pub fn solo_is_complete()
    ensures { CompletesImage (FollowsSolo MissesArePaid) }
{}

/// Over a shelf that did not fail, an image that it lacks gives `Missing` of `solo` and `trace`, or `NoMemory`.
pub fn a_missing_image_is_told()
    ensures solo { TellsImageMissing (FollowsSolo MissesArePaid) }
    ensures trace { TellsImageMissing (FollowsTrace MissesArePaid) }
{}

/// Over a shelf that did not fail, an image that is too long gives `TooLong` of `solo` and `trace`, or `NoMemory`.
pub fn a_too_long_image_is_told()
    ensures solo { TellsImageTooLong (FollowsSolo MissesArePaid) }
    ensures trace { TellsImageTooLong (FollowsTrace MissesArePaid) }
{}

/// Over a shelf that did not fail, an image that doesn't fit the guest's memory gives `Image` of `solo` and `trace`, or
/// `NoMemory`.
pub fn an_image_that_does_not_fit_is_told()
    ensures solo { TellsImageMisfit (FollowsSolo MissesArePaid) }
    ensures trace { TellsImageMisfit (FollowsTrace MissesArePaid) }
{}

/// Where a line's count is greater after `solo` or `trace`, the answer names it or one of a lower number.
pub fn a_failed_line_is_told()
    ensures solo { TellsImageLineFault (FollowsSolo MissesArePaid) }
    ensures trace { TellsImageLineFault (FollowsTrace MissesArePaid) }
{}

/// Held files that stand for a configuration, a script and images that fit, drives that fit, and no risen count, give `Done`, or
/// `NoMemory` before anything is shown.
pub fn run_is_complete()
    ensures { CompletesRun }
{}

/// Over a shelf that did not fail, the first file of a run that it lacks gives `Missing`, or `NoMemory`.
pub fn the_first_missing_file_is_told()
    ensures { TellsRunMissing }
{}

/// Over a shelf that did not fail, the first file of a run that is too long gives `TooLong`, or `NoMemory`.
pub fn the_first_too_long_file_is_told()
    ensures { TellsRunTooLong }
{}

/// A configuration that breaks a rule gives `Config`, or `NoMemory`.
pub fn a_refused_configuration_is_told()
    ensures { TellsRunRule }
{}

/// A script of which a line is refused gives `Script`, or `NoMemory`, where the configuration is accepted.
pub fn a_refused_script_is_told()
    ensures { TellsRunLine }
{}

/// Over a shelf that did not fail, the first image of a run that doesn't fit its guest's memory gives `Image`, or `NoMemory`.
pub fn the_first_image_that_does_not_fit_is_told()
    ensures { TellsRunImage }
{}

/// Where images fit and no count rose, the first volume whose drive has another number of blocks gives `VolumeSize`, or
/// `NoMemory`.
pub fn the_first_volume_of_another_size_is_told()
    ensures { TellsRunSize }
{}

/// Where a line's count is greater after `run`, the answer names it or one of a lower number.
pub fn a_run_names_a_failed_line()
    ensures { TellsRunLineFault }
{}

/// Where a drive's count is greater after `run`, the answer names a line, or it or a drive of a lower number.
pub fn a_run_names_a_failed_drive()
    ensures { TellsRunDriveFault }
{}

/// No risen count gives `Done` of `load`, or `NoMemory` before anything is shown.
pub fn load_is_complete()
    ensures { CompletesLoad }
{}

/// `load` is answered by `Done`, by a line or an output that failed, or by `NoMemory`, and by nothing else.
pub fn load_has_few_answers()
    ensures { LimitsLoad }
{}

/// Where a line's count is greater after `load`, the answer names it or one of a lower number.
pub fn a_load_names_a_failed_line()
    ensures { TellsLoadLineFault }
{}

/// A held configuration that is accepted, and no risen count, give `Done` of `check`, `migrate`, `flow` and `draw`, or `NoMemory`.
pub fn a_configuration_is_shown()
    ensures check { CompletesConfig AreCounts }
    ensures migrate { CompletesConfig IsMigrated }
    ensures flow { CompletesConfig IsReport }
    ensures draw { CompletesConfig IsDrawing }
{}

/// Over a shelf that did not fail, a configuration that it lacks gives `Missing` of `check`, `migrate`, `flow` and `draw`, or
/// `NoMemory`.
pub fn a_missing_configuration_is_told()
    ensures check { TellsConfigMissing AreCounts }
    ensures migrate { TellsConfigMissing IsMigrated }
    ensures flow { TellsConfigMissing IsReport }
    ensures draw { TellsConfigMissing IsDrawing }
{}

/// Over a shelf that did not fail, a configuration that is too long gives `TooLong` of `check`, `migrate`, `flow` and `draw`, or
/// `NoMemory`.
pub fn a_too_long_configuration_is_told()
    ensures check { TellsConfigTooLong AreCounts }
    ensures migrate { TellsConfigTooLong IsMigrated }
    ensures flow { TellsConfigTooLong IsReport }
    ensures draw { TellsConfigTooLong IsDrawing }
{}

/// A configuration that breaks a rule gives `Config` of `check`, `migrate`, `flow` and `draw`, or `NoMemory`.
pub fn a_broken_rule_is_told()
    ensures check { TellsConfigRule AreCounts }
    ensures migrate { TellsConfigRule IsMigrated }
    ensures flow { TellsConfigRule IsReport }
    ensures draw { TellsConfigRule IsDrawing }
{}

/// A held configuration that is accepted, a held file within the limit that is an audit of it, and no risen count, give `Done`
/// of `audit`, or `NoMemory`.
pub fn an_audit_is_accepted()
    ensures { CompletesAudit }
{}

/// Over a shelf that did not fail, a held file that is no audit of the configuration gives `Audit` of the first line through
/// whose end it is none, or `NoMemory`.
pub fn a_line_of_no_audit_is_told()
    ensures { TellsAuditLine }
{}

/// Over a shelf that did not fail, the first file of `audit` that it lacks gives `Missing`, or `NoMemory`.
pub fn a_missing_file_of_an_audit_is_told()
    ensures { TellsAuditMissing }
{}

/// Over a shelf that did not fail, the first file of `audit` that is too long gives `TooLong`, or `NoMemory`.
pub fn a_too_long_file_of_an_audit_is_told()
    ensures { TellsAuditTooLong }
{}

/// A configuration that breaks a rule gives `Config` of `audit`, or `NoMemory`.
pub fn a_broken_rule_of_an_audit_is_told()
    ensures { TellsAuditRule }
{}

/// A held file within the limit that stands for bytes or a text, and no risen count, give `Done` of `asm`, `list` and `dis`, or
/// `NoMemory`.
pub fn a_file_is_shown()
    ensures { CompletesFile }
{}

/// A held file of which a line is refused, and no risen count, give `Asm` of that line, or `NoMemory`.
pub fn a_refused_line_is_told()
    ensures { TellsFileRefused }
{}

/// Over a shelf that did not fail, a file to be shown that it lacks gives `Missing`, or `NoMemory`.
pub fn a_missing_file_is_told()
    ensures { TellsFileMissing }
{}

/// Over a shelf that did not fail, a file to be shown that is too long gives `TooLong`, or `NoMemory`.
pub fn a_too_long_file_is_told()
    ensures { TellsFileTooLong }
{}
