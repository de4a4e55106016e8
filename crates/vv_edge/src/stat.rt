ghost use Rattle.std.specs.Prelude.{◌≡◌, ◌^◌, ◌/◌, ◌-◌, min};
ghost use Rattle.vv_edge.specs.Found.{
  whole_blocks,
  flaw_of,
  is_as_shown,
  is_identity_taken,
  is_removable,
  is_same_file,
  is_as_found,
  drive_under,
  look_failed,
};

use std::io::ErrorKind;

/// What is under a name.
#[derive(Clone, Copy, Debug, PartialEq, Eq)]
pub enum Kind {
    /// A file.
    File,
    /// A symbolic link.
    Link,
    /// A folder, a pipe, a device.
    Other,
}

/// Which file it is: the device that it lies on, and its number there.
#[derive(Clone, Copy, Debug, PartialEq, Eq)]
pub struct Identity {
    pub device: u64,
    pub number: u64,
}

/// What the system says of a name, or of an open file.
#[derive(Clone, Copy, Debug, PartialEq, Eq)]
pub struct Found {
    pub kind: Kind,
    pub identity: Identity,
    /// How many names the file has (hard links).
    pub names: u64,
    /// Bytes.
    pub length: u64,
}

/// What a look at a name shows.
#[derive(Clone, Copy, Debug, PartialEq, Eq)]
pub enum Look {
    /// Nothing is there.
    Nothing,
    /// The system doesn't say what is there.
    Untold,
    /// This is there.
    There(Found),
}

/// What a look that failed shows.
pub fn look_failed(kind: ErrorKind) -> Look
    ensures { result ≡ look_failed kind }
{
    match kind {
        ErrorKind::NotFound => Look::Nothing,
        _ => Look::Untold,
    }
}

/// Why a file can't be a drive.
#[derive(Clone, Copy, Debug, PartialEq, Eq)]
pub enum Flaw {
    /// The system doesn't say what is under its name.
    Untold,
    /// It is a symbolic link.
    Link,
    /// It is no file, but a folder, a pipe or a device.
    NoFile,
    /// It has another name (a hard link).
    OtherName,
    /// It is taken: another drive's file, that of a standard stream, or one of the words.
    Shared,
}

fn is_same(a: &Identity, b: &Identity) -> bool
    ensures { result ≡ is_same_file a.now b.now }
{
    a.device == b.device && a.number == b.number
}

/// Whether a file is one of those that are taken.
pub fn is_among(identity: &Identity, taken: &[Identity]) -> bool
    ensures { result ≡ is_identity_taken identity.now taken.now }
{
    taken.iter().any(|other| is_same(identity, other))
}

/// Whether what is under a line's name may be removed: a file that is no link, has one name, and isn't taken.
pub fn is_removable(found: &Found, taken: &[Identity]) -> bool
    ensures { result ≡ is_removable found.now taken.now }
{
    matches!(found.kind, Kind::File) && found.names == 1 && !is_among(&found.identity, taken)
}

/// Whether a line's file is still one of one name, and as long as what was shown.
fn is_as_shown(found: &Found, shown: u64) -> bool
    ensures { result ≡ is_as_shown found.now shown }
{
    matches!(found.kind, Kind::File) && found.names == 1 && found.length == shown
}

/// Whether a device's file is still the one that is known, if one is, with one name and of this length.
pub fn is_as_found(found: &Found, known: Option<Identity>, length: u64) -> bool
    ensures { result ≡ is_as_found found.now known length }
{
    let is_known = match known {
        Some(known) => is_same(&known, &found.identity),
        None => true,
    };
    is_known && is_as_shown(found, length)
}

/// Why what is under a drive's name can't be a drive, beside the files that are taken.
fn flaw_of(found: &Found, taken: &[Identity]) -> Option<Flaw>
    ensures { result ≡ flaw_of found.now taken.now }
{
    match found.kind {
        Kind::Link => Some(Flaw::Link),
        Kind::Other => Some(Flaw::NoFile),
        Kind::File if found.names != 1 => Some(Flaw::OtherName),
        Kind::File if is_among(&found.identity, taken) => Some(Flaw::Shared),
        Kind::File => None,
    }
}

/// What is under a drive's name, or why it can't be a drive; none where nothing is there.
pub fn drive_under(look: &Look, taken: &[Identity]) -> Option<Result<Found, Flaw>>
    ensures { result ≡ drive_under look.now taken.now }
{
    match look {
        Look::Nothing => None,
        Look::Untold => Some(Err(Flaw::Untold)),
        Look::There(found) => match flaw_of(found, taken) {
            Some(flaw) => Some(Err(flaw)),
            None => Some(Ok(*found)),
        },
    }
}

/// How many whole blocks of 512 bytes `length` bytes have, as far as 32 bits hold it.
fn blocks_in(length: u64) -> u32
    ensures { result ≡ min (length / 512) (2 ^ 32 - 1) }
{
    u32::try_from(length / 512).unwrap_or(u32::MAX)
}

/// How many blocks the file of a drive has; none where it is no file.
pub fn whole_blocks(target: &Option<Found>) -> u32
    ensures { result ≡ whole_blocks target.now }
{
    match target {
        Some(found) if matches!(found.kind, Kind::File) => blocks_in(found.length),
        _ => 0,
    }
}
