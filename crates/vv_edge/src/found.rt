use crate::stat::{Found, Identity, Kind, Look, look_failed};
use std::fs::Metadata;
use std::io::ErrorKind;
use std::os::unix::fs::MetadataExt;
use std::{fs, io};

/// What the system's metadata say.
pub fn found_of(metadata: &Metadata) -> Found {
    let kind = if metadata.is_file() {
        Kind::File
    } else if metadata.is_symlink() {
        Kind::Link
    } else {
        Kind::Other
    };
    Found {
        kind,
        identity: Identity {
            device: metadata.dev(),
            number: metadata.ino(),
        },
        names: metadata.nlink(),
        length: metadata.len(),
    }
}

/// What is under a name.
pub fn look(rt: &HostRuntime, path: &str) -> Look {
    match fs::symlink_metadata(rt, path) {
        Ok(metadata) => Look::There(found_of(&metadata)),
        Err(error) => look_failed(error.kind()),
    }
}

/// What is under a name, with all links followed.
pub fn target_of(rt: &HostRuntime, path: &str) -> Option<Found> {
    let metadata = fs::metadata(rt, path).ok()?;
    Some(found_of(&metadata))
}

/// Which file is under a name, with all links followed.
pub fn identity_of(rt: &HostRuntime, path: &str) -> Option<Identity> {
    Some(target_of(rt, path)?.identity)
}

/// A device that can't be used, or that isn't what it was.
pub fn unfit() -> io::Error {
    io::Error::from(ErrorKind::InvalidData)
}
