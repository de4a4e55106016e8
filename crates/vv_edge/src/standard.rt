use crate::telling::Note;
use std::fs::{File, TryLockError};
use std::os::fd::AsRawFd;
use std::{fs, io};
use vv_base::NoMemory;

/// Opens `/dev/null` for reading as often as one of the three standard descriptors is closed, so that no file that is opened
/// later becomes one of them. They stay open as long as what is given back.
pub fn hold_standard(rt: &HostRuntime) -> io::Result<[Option<File>; 3]> {
    let mut held = [None, None, None];
    for place in 0..3 {
        let file = fs::open(rt, "/dev/null")?;
        if file.as_raw_fd() > 2 {
            break;
        }
        held[place] = Some(file);
    }
    Ok(held)
}

/// Opens `/dev/null` `count` times: a line or a drive gives one up as it opens its file, so that none uses up another's. One more
/// can be had meanwhile, for a file that is open for a moment. None where the system refuses that.
pub fn hold_places(rt: &HostRuntime, count: u8) -> Result<Option<Vec<File>>, NoMemory> {
    let mut places = Vec::new(rt.alloc());
    for _ in 0..=count {
        match fs::open(rt, "/dev/null") {
            Ok(place) => places.push(place)?,
            Err(_) => return Ok(None),
        }
    }
    let _ = places.pop();
    Ok(Some(places))
}

/// Locks the folder that the program runs in, for as long as it has this file; or why it can't.
pub fn hold_folder(rt: &HostRuntime) -> Result<File, Note> {
    let Ok(folder) = fs::open(rt, ".") else {
        return Err(Note::Unlocked);
    };
    match folder.try_lock() {
        Ok(()) => Ok(folder),
        Err(TryLockError::WouldBlock) => Err(Note::Busy),
        Err(TryLockError::Error(_)) => Err(Note::Unlocked),
    }
}
