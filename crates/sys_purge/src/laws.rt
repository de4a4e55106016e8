ghost use Rattle.sys_objects.specs.Condition.{IsConfig};
ghost use Rattle.sys_objects.specs.declared.records.Config.{Config};
ghost use Rattle.sys_purge.specs.Adding.{GuestsAddNoBlocks, GuestsAddNothing};
ghost use Rattle.sys_purge.specs.Judged.{KeepsVerdicts};
ghost use Rattle.sys_purge.specs.Laws.{DevicesDependOnPurges, KeepsDevices, KeepsDrives, KeepsLines, KeepsShown, KeepsVolumes, OpeningsArePurged, VolumesDependOnPurges};
ghost use Rattle.sys_purge.specs.Purge.{purge_config};
ghost use Rattle.vv_class.specs.declared.class.AccessClass.{AccessClass};

/// The purge of an accepted configuration is accepted.
pub fn purged_is_accepted()
    ensures { (c : Config) (to : AccessClass) → IsConfig c → IsConfig (purge_config c to) }
{}

/// What the server answers at a terminal that flows into a class is the same, with places among what is kept, when all
/// that doesn't flow into the class was never there.
pub fn a_purge_keeps_verdicts()
    ensures { KeepsVerdicts }
{}

/// A line that flows into a class gets the same bytes when all that doesn't flow into the class was never there: of a
/// terminal, a printer, the audit or a dump.
pub fn a_purge_keeps_lines()
    ensures { KeepsLines }
{}

/// A drive that flows into a class ends with the same blocks when all that doesn't flow into the class was never there.
pub fn a_purge_keeps_drives()
    ensures { KeepsDrives }
{}

/// Each device on a line gets the bytes that it gets when all that doesn't flow into its own class was never there.
pub fn a_device_keeps_its_bytes()
    ensures { KeepsDevices }
{}

/// Each device on a line is shown by the rounds, before any dump, what it is shown when all that doesn't flow into its own class
/// was never there.
pub fn a_device_keeps_what_it_is_shown()
    ensures { KeepsShown }
{}

/// Each volume ends with the blocks with which it ends when all that doesn't flow into its own class was never there.
pub fn a_volume_keeps_its_blocks()
    ensures { KeepsVolumes }
{}

/// Two inputs with one purge to a class give the same bytes on each device of the first that flows into the class.
pub fn devices_depend_on_what_flows()
    ensures { DevicesDependOnPurges }
{}

/// Two inputs with one purge to a class give the same blocks of each volume of the first that flows into the class.
pub fn volumes_depend_on_what_flows()
    ensures { VolumesDependOnPurges }
{}

/// One more guest, whose class doesn't flow into a device's, changes no byte of that device.
pub fn a_guest_more_adds_nothing()
    ensures { GuestsAddNothing }
{}

/// One more guest, whose class doesn't flow into a volume's, changes no block of that volume.
pub fn a_guest_more_adds_no_blocks()
    ensures { GuestsAddNoBlocks }
{}

/// A run whose input is purged begins with the purge of the run's first moment.
pub fn a_purged_run_begins_with_a_purged_moment()
    ensures { OpeningsArePurged }
{}
