ghost use Rattle.std.specs.Prelude.{◌≡◌, map, vec_len};
ghost use Rattle.sys_devices.specs.Syncing.{SyncsDrives, SyncsLines, first_fault};

use vv_io::{Drive, Lines, sync_drive};

/// The first that failed, after the sync of one more.
fn first_fault(failed: Option<u8>, k: u8, fails: bool) -> Option<u8>
    ensures { result ≡ first_fault failed k fails }
{
    match failed {
        Some(first) => Some(first),
        None if fails => Some(k),
        None => None,
    }
}

/// Syncs the lines, and answers the first that fails.
pub fn sync_lines<L: Lines>(lines: &mut L) -> Option<u8>
    ensures { SyncsLines (L.lines lines.old) (L.lines lines.new) result }
{
    let mut failed = None;
    for k in 0..32 {
        let fails = lines.sync_line(k).is_err();
        failed = first_fault(failed, k, fails);
    }
    failed
}

/// Syncs the drives, of which there are at most 16, and answers the first that fails.
pub fn sync_drives(drives: &mut Vec<Box<dyn Drive>>) -> Option<u8>
    ensures syncs { SyncsDrives (map (λ d. kept d) drives.old.items) (map (λ d. kept d) drives.new.items) result }
    ensures len { vec_len drives.new ≡ vec_len drives.old }
{
    let count = drives.len().min(16) as u8;
    let mut failed = None;
    for k in 0..count {
        let fails = sync_drive(drives, usize::from(k)).is_err();
        failed = first_fault(failed, k, fails);
    }
    failed
}
