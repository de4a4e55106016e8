ghost use Rattle.vvmm_call.specs.Answer.{FollowsExtend, FollowsResume};
ghost use Rattle.sys_runs.specs.Besides.{MissesArePaid};
ghost use Rattle.vvmm_laws.specs.Snaps.{CompletesExtend, CompletesResume, CompletesSave, TellsExtendSize, TellsMany, TellsResumeDriveFault, TellsResumeLine, TellsResumeLineFault, TellsResumeMissing, TellsResumeSize, TellsResumeTooLong, TellsSaveImage, TellsSaveLine, TellsSaveLineFault, TellsSaveMissing, TellsSaveRule, TellsSaveSize, TellsSaveTooLong, TellsSnap, TellsSnapSize};
ghost use Rattle.vvmm_laws.specs.Together.{PartsMakeOne, SavesMakeOne};

/// `save`, any number of `extend`, each of what the one before it showed, and `resume` of the last, with the same script and all
/// answered by `Done`, are the run of all their rounds. What each line gets in them, one after another, is what the run gives it,
/// and each volume's drive ends with its last blocks. Without the `resume` they are `save` of all rounds, byte for byte.
pub fn parts_of_a_run_are_one_run()
    ensures run { PartsMakeOne }
    ensures save { SavesMakeOne }
{}

/// Held files that stand for a configuration, a script and images that fit, a snapshot that isn't too large, drives that fit, and
/// no risen count, give `Done` of `save`, or `NoMemory` before anything is shown.
pub fn save_is_complete()
    ensures { CompletesSave }
{}

/// Over a shelf that did not fail, the first file of `save` that it lacks gives `Missing`, or `NoMemory`.
pub fn the_first_missing_file_to_save_is_told()
    ensures { TellsSaveMissing }
{}

/// Over a shelf that did not fail, the first file of `save` that is too long gives `TooLong`, or `NoMemory`.
pub fn the_first_too_long_file_to_save_is_told()
    ensures { TellsSaveTooLong }
{}

/// A configuration that breaks a rule gives `Config` of `save`, or `NoMemory`.
pub fn a_refused_configuration_to_save_is_told()
    ensures { TellsSaveRule }
{}

/// A script of which a line is refused gives `Script` of `save`, or `NoMemory`, where the configuration is accepted.
pub fn a_refused_script_to_save_is_told()
    ensures { TellsSaveLine }
{}

/// Where configuration and script are accepted, a snapshot that would be too large gives `SnapSize` of `save`, or `NoMemory`,
/// whichever images the shelf holds. So does one of `extend` that would have more than 1,000,000 rounds.
pub fn a_too_large_snapshot_is_told()
    ensures save { TellsSnapSize }
    ensures extend { TellsMany }
{}

/// Over a shelf that did not fail, the first image of `save` that doesn't fit its guest's memory gives `Image`, or `NoMemory`.
pub fn the_first_image_to_save_that_does_not_fit_is_told()
    ensures { TellsSaveImage }
{}

/// Where images fit and no count rose, the first volume of `save` whose drive has another number of blocks gives `VolumeSize`, or
/// `NoMemory`.
pub fn the_first_volume_to_save_of_another_size_is_told()
    ensures { TellsSaveSize }
{}

/// Where a line's count is greater after `save`, the answer names it or one of a lower number.
pub fn a_save_names_a_failed_line()
    ensures { TellsSaveLineFault }
{}

/// Held files that stand for a snapshot and a script, drives that fit its volumes, and no risen count, give `Done` of `resume`, or
/// `NoMemory` before anything is shown.
pub fn resume_is_complete()
    ensures { CompletesResume }
{}

/// Held files that stand for a snapshot and a script, as many rounds as a snapshot can have, drives that fit its volumes, and no
/// risen count, give `Done` of `extend`, or `NoMemory` before anything is shown.
pub fn extend_is_complete()
    ensures { CompletesExtend }
{}

/// Over a shelf that did not fail, the first file of `resume` or `extend` that it lacks gives `Missing`, or `NoMemory`.
pub fn the_first_missing_file_to_resume_is_told()
    ensures resume { TellsResumeMissing (FollowsResume MissesArePaid) }
    ensures extend { TellsResumeMissing (FollowsExtend MissesArePaid) }
{}

/// Over a shelf that did not fail, the first file of `resume` or `extend` that is too long gives `TooLong`, or `NoMemory`.
pub fn the_first_too_long_file_to_resume_is_told()
    ensures resume { TellsResumeTooLong (FollowsResume MissesArePaid) }
    ensures extend { TellsResumeTooLong (FollowsExtend MissesArePaid) }
{}

/// Bytes that are no snapshot give `Snap` of the place where the first field begins that is cut or not allowed, or `NoMemory`.
pub fn a_refused_snapshot_is_told()
    ensures resume { TellsSnap (FollowsResume MissesArePaid) }
    ensures extend { TellsSnap (FollowsExtend MissesArePaid) }
{}

/// A script of which a line is refused gives `Script` of `resume` and `extend`, or `NoMemory`, where the snapshot is accepted.
pub fn a_refused_script_to_resume_is_told()
    ensures resume { TellsResumeLine (FollowsResume MissesArePaid) }
    ensures extend { TellsResumeLine (FollowsExtend MissesArePaid) }
{}

/// The first volume of a snapshot whose drive has another number of blocks gives `VolumeSize` of `resume`, or `NoMemory`; and of
/// `extend`, where a snapshot can have as many rounds as there would be.
pub fn the_first_volume_to_resume_of_another_size_is_told()
    ensures resume { TellsResumeSize }
    ensures extend { TellsExtendSize }
{}

/// Where a line's count is greater after `resume` or `extend`, the answer names it or one of a lower number.
pub fn a_resume_names_a_failed_line()
    ensures resume { TellsResumeLineFault (FollowsResume MissesArePaid) }
    ensures extend { TellsResumeLineFault (FollowsExtend MissesArePaid) }
{}

/// Where a drive's count is greater after `resume`, the answer names a line, or it or a drive of a lower number.
pub fn a_resume_names_a_failed_drive()
    ensures { TellsResumeDriveFault }
{}
