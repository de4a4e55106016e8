ghost use Rattle.std.specs.Prelude.{◌≡◌, IfOk};
ghost use Rattle.sys_config.specs.Config.{config_of};
ghost use Rattle.vv_edge.specs.Learning.{audit_line_in, line_of_text, shown_front, refused_column, refused_line, seen_as, told_word, wanted_in};

use crate::columns::{script_column, source_column};
use crate::telling::Note;
use std::alloc::Global;
use sys_config::{ConfigError, read_config};
use vv_base::{NoMemory, Text, first_line};
use vvmm_files::Status;

/// The place among the words of the file that says more about an answer, if one does.
pub fn told_word(status: &Status) -> Option<usize>
    ensures { result ≡ told_word status.now }
{
    match status {
        Status::Script(_) | Status::Audit(_) => Some(2),
        Status::Config(_) | Status::Asm(_) | Status::VolumeSize(_) | Status::DeviceFault(_) => Some(
            1,
        ),
        _ => None,
    }
}

/// The audit's line in a configuration, where a device failed.
pub fn audit_line(alloc: Global, config: &[u8], status: &Status) -> Result<Option<u8>, NoMemory>
    ensures { IfOk result (λ line. line ≡ audit_line_in (config_of config.now) status.now) }
{
    if !matches!(status, Status::DeviceFault(_)) {
        return Ok(None);
    }
    match read_config(alloc, config) {
        Ok(config) => match config.audit {
            Some(audit) => Ok(Some(audit.line)),
            None => Ok(None),
        },
        Err(ConfigError::Fault(_)) => Ok(None),
        Err(ConfigError::NoMemory) => Err(NoMemory),
    }
}

/// What the drive of a configuration's volume must have, where it hasn't.
pub fn wanted_drive(alloc: Global, config: &[u8], status: &Status) -> Result<Option<Note>, NoMemory>
    ensures { IfOk result (λ note. note ≡ wanted_in (config_of config.now) status.now) }
{
    let Status::VolumeSize(volume) = status else {
        return Ok(None);
    };
    match read_config(alloc, config) {
        Ok(config) => match config.volumes.as_slice().get(usize::from(*volume)) {
            Some(row) => Ok(Some(Note::Wanted(row.drive, row.blocks))),
            None => Ok(None),
        },
        Err(ConfigError::Fault(_)) => Ok(None),
        Err(ConfigError::NoMemory) => Err(NoMemory),
    }
}

/// The line of a text that an answer refuses, as far as there is room.
pub fn refused_line(text: &[u8], status: &Status) -> Text<80>
    ensures { result ≡ refused_line text.now status.now }
{
    match status {
        Status::Script(fault) => shown_front(line_of_text(text, fault.line)),
        Status::Asm(fault) => shown_front(line_of_text(text, fault.line)),
        Status::Audit(fault) => shown_front(line_of_text(text, fault.line)),
        _ => Text::new(),
    }
}

/// The column of that line where the part begins that is refused; 0 where it isn't known.
pub fn refused_column(text: &[u8], status: &Status) -> u64
    ensures { result ≡ refused_column text.now status.now }
{
    let line = match status {
        Status::Script(fault) => line_of_text(text, fault.line),
        Status::Asm(fault) => line_of_text(text, fault.line),
        _ => &[],
    };
    match status {
        _ if line.is_empty() => 0,
        Status::Script(fault) => script_column(fault.kind, line),
        Status::Asm(fault) => source_column(fault.kind, line),
        _ => 0,
    }
}

/// A line of a text, counted from 1, without its end; no bytes where there is none.
fn line_of_text(text: &[u8], line: u32) -> &[u8]
    ensures { result.now ≡ line_of_text text.now line }
{
    let mut rest = text;
    for number in 1..line {
        if rest.is_empty() {
            return &[];
        }
        rest = first_line(rest).1;
    }
    if rest.is_empty() {
        return &[];
    }
    first_line(rest).0
}

/// Bytes as far as there is room, with a point for each that doesn't print.
pub fn shown_front(line: &[u8]) -> Text<80>
    ensures { result ≡ shown_front line.now }
{
    let mut text = Text::new();
    for byte in &line[..line.len().min(80)] {
        text.append_byte(seen_as(*byte));
    }
    text
}

/// What a byte is shown as: itself where it prints, else a point.
fn seen_as(byte: u8) -> u8
    ensures { result ≡ seen_as byte }
{
    if (32..127).contains(&byte) {
        byte
    } else {
        b'.'
    }
}
