ghost use Rattle.std.specs.Prelude.{◌≡◌, ◌++◌, ◌+◌, ◌≤◌, length, decimal};
ghost use Rattle.vvmm_files.specs.Answers.{code_of, config_text, device_text, script_fault_text, text_of};

use crate::answer::fault_text;
use sys_audit_check::AuditFault;
use sys_devices::Device;
use sys_objects::ConfigFault;
use sys_script::{ScriptFault, kind_text};
use sys_snap::SnapFault;
use vasm_text::AsmFault;
use vv_base::{FileName, NoMemory, Text, decimal};

/// The answer of the program.
#[derive(Drop)]
pub enum Status {
    /// All was done and shown.
    Done,
    /// The words are of no form that exists.
    Words,
    /// The shelf lacks a file.
    Missing(FileName),
    /// A file has more than 16,777,216 bytes.
    TooLong(FileName),
    /// The shelf failed.
    ShelfFault,
    /// The configuration breaks a rule.
    Config(ConfigFault),
    /// A line of the script is refused.
    Script(ScriptFault),
    /// A guest's image doesn't fit its memory.
    Image(u8),
    /// A volume has another number of blocks than its drive.
    VolumeSize(u8),
    /// A drive failed while its volume was read.
    DriveIn(u8),
    /// A line or a drive failed.
    DeviceFault(Device),
    /// A line of the source is refused.
    Asm(AsmFault),
    /// A snapshot would have too many bytes or rounds.
    SnapSize,
    /// The bytes of a file are no snapshot.
    Snap(SnapFault),
    /// The bytes through a line are no audit of the configuration.
    Audit(AuditFault),
    /// The summary, bytes or text couldn't be put.
    OutFault,
    /// The typing broke off: the keyboard failed, or memory ran out for a line.
    KeyFault,
    /// Memory ran out.
    NoMemory,
}

impl From<NoMemory> for Status {
    ghost use Rattle.vvmm_files.specs.declared.status.Status.TheVariants.{NoMemory as OutOfMemory};

    ghost from_gives = { λ _ e. e ≡ OutOfMemory };

    fn from(_: NoMemory) -> Status {
        Status::NoMemory
    }
}

/// A word and a number.
fn numbered(word: &[u8], number: u64) -> Text<96>
    requires { length word.now ≤ 40 }
    ensures is { result ≡ word.now ++ decimal number }
    ensures short { length result ≤ length word.now + 20 }
{
    let mut text = Text::new();
    text.append(word);
    text.append(decimal(number).bytes());
    text
}

/// A word and a name.
fn named(word: &[u8], name: &FileName) -> Text<96>
    requires { length word.now ≤ 32 }
    ensures { result ≡ word.now ++ name.now }
{
    let mut text = Text::new();
    text.append(word);
    text.append(name.bytes());
    text
}

/// Words alone.
fn worded(words: &[u8]) -> Text<96>
    requires { length words.now ≤ 96 }
    ensures { result ≡ words.now }
{
    let mut text = Text::new();
    text.append(words);
    text
}

fn device_text(device: Device) -> Text<96>
    ensures { result ≡ device_text device }
{
    match device {
        Device::Line(n) => numbered(b"device line ", u64::from(n)),
        Device::Drive(n) => numbered(b"device drive ", u64::from(n)),
    }
}

fn config_text(fault: ConfigFault) -> Text<96>
    ensures { result ≡ config_text fault }
{
    let mut text = numbered(b"config rule ", u64::from(fault.rule));
    text.append(b" at ");
    text.append(decimal(u64::from(fault.place)).bytes());
    text
}

fn script_text(fault: ScriptFault) -> Text<96>
    ensures { result ≡ script_fault_text fault }
{
    let mut text = numbered(b"script line ", u64::from(fault.line));
    text.append(b" ");
    text.append(kind_text(fault.kind));
    text
}

/// What is printed of an answer on standard error.
pub fn status_text(s: &Status) -> Text<96>
    ensures { result ≡ text_of s.now }
{
    match s {
        Status::Done => Text::new(),
        Status::Words => worded(b"bad words"),
        Status::Missing(name) => named(b"missing ", name),
        Status::TooLong(name) => named(b"too long ", name),
        Status::ShelfFault => worded(b"shelf fault"),
        Status::Config(fault) => config_text(*fault),
        Status::Script(fault) => script_text(*fault),
        Status::Image(guest) => numbered(b"image ", u64::from(*guest)),
        Status::VolumeSize(volume) => numbered(b"volume size ", u64::from(*volume)),
        Status::DriveIn(drive) => numbered(b"drive ", u64::from(*drive)),
        Status::DeviceFault(device) => device_text(*device),
        Status::Asm(fault) => fault_text(fault),
        Status::SnapSize => worded(b"snapshot size"),
        Status::Snap(fault) => numbered(b"snapshot at ", u64::from(fault.place)),
        Status::Audit(fault) => numbered(b"audit line ", u64::from(fault.line)),
        Status::OutFault => worded(b"output fault"),
        Status::KeyFault => worded(b"keyboard fault"),
        Status::NoMemory => worded(b"no memory"),
    }
}

/// The exit code of an answer.
pub fn status_code(s: &Status) -> u8
    ensures { result ≡ code_of s.now }
{
    match s {
        Status::Done => 0,
        Status::Words => 2,
        Status::Missing(_) => 3,
        Status::ShelfFault => 4,
        Status::Config(_) => 5,
        Status::Script(_) => 6,
        Status::Image(_) => 7,
        Status::VolumeSize(_) => 8,
        Status::DriveIn(_) => 9,
        Status::DeviceFault(_) => 10,
        Status::OutFault => 11,
        Status::NoMemory => 12,
        Status::TooLong(_) => 13,
        Status::Asm(_) => 15,
        Status::SnapSize => 16,
        Status::Snap(_) => 17,
        Status::Audit(_) => 18,
        Status::KeyFault => 19,
    }
}
