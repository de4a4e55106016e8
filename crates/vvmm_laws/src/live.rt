ghost use Rattle.vvmm_laws.specs.Agreed.{LivesAgree};
ghost use Rattle.vvmm_laws.specs.Live.{ALineMoreIsAlike, CompletesLive, TellsLiveDriveFault, TellsLiveImage, TellsLiveLineFault, TellsLiveMissing, TellsLiveRule, TellsLiveSize, TellsLiveTooLong, TypingKeepsDrives, TypingKeepsLines};

/// Held files that stand for a configuration and images that fit, drives that fit, and no risen count, give `Done` of `live`; or
/// `NoMemory`; or `KeyFault`, where 4,294,967,295 lines were typed.
pub fn live_is_complete()
    ensures { CompletesLive }
{}

/// Over a shelf that did not fail, the first file of `live` that it lacks gives `Missing`, or `NoMemory`.
pub fn the_first_missing_file_to_live_is_told()
    ensures { TellsLiveMissing }
{}

/// Over a shelf that did not fail, the first file of `live` that is too long gives `TooLong`, or `NoMemory`.
pub fn the_first_too_long_file_to_live_is_told()
    ensures { TellsLiveTooLong }
{}

/// A configuration that breaks a rule gives `Config` of `live`, or `NoMemory`.
pub fn a_refused_configuration_to_live_is_told()
    ensures { TellsLiveRule }
{}

/// Over a shelf that did not fail, the first image of `live` that doesn't fit its guest's memory gives `Image`, or `NoMemory`.
pub fn the_first_image_to_live_that_does_not_fit_is_told()
    ensures { TellsLiveImage }
{}

/// Where images fit and no count rose, the first volume of `live` whose drive has another number of blocks gives `VolumeSize`, or
/// `NoMemory`.
pub fn the_first_volume_to_live_of_another_size_is_told()
    ensures { TellsLiveSize }
{}

/// Where a line's count is greater after `live`, the answer names it or one of a lower number.
pub fn a_live_run_names_a_failed_line()
    ensures { TellsLiveLineFault }
{}

/// Where a drive's count is greater after `live`, the answer names a line, or it or a drive of a lower number.
pub fn a_live_run_names_a_failed_drive()
    ensures { TellsLiveDriveFault }
{}

/// What is typed at terminals whose class doesn't flow into a device's changes nothing there, where it makes as many rounds.
pub fn typing_keeps_lines()
    ensures { TypingKeepsLines }
{}

/// Nor in a volume.
pub fn typing_keeps_drives()
    ensures { TypingKeepsDrives }
{}

/// One more line at such a terminal is typed so, where an empty line ends its round.
pub fn a_line_more_is_alike()
    ensures { ALineMoreIsAlike }
{}

/// Two runs of `live` over the same files and drives, which are all done, put the same on each device, and leave the same in each
/// volume, whose class flows into one to which their typing is alike.
pub fn live_runs_agree()
    ensures { LivesAgree }
{}
