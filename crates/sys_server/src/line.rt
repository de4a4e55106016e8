ghost use Rattle.std.specs.Prelude.{◌≡◌, ◌==◌, ◌<◌, ◌∷◌, [], IfSome, List, ℕ, Some, bytes_eq, length, position};
ghost use Rattle.std.specs.Option.{option_copied};
ghost use Rattle.sys_server.specs.CommandLine.{Asks, access_in, asked_in, asked_of, rest_words, unit_in, words};
ghost use Rattle.sys_server.specs.declared.command.NamedCommand.{NamedCommand as Question};

use crate::NamedCommand;
use vv_base::{find, object_name};

fn is_word(word: &[u8], wanted: &[u8]) -> bool
    ensures { result ≡ bytes_eq word.now wanted.now }
{
    word == wanted
}

/// The first word, and what comes after the blank that follows it.
fn cut(text: &[u8]) -> (&[u8], Option<&[u8]>)
    ensures { words text.now ≡ result.0.now ∷ rest_words (option_copied result.1) }
{
    match find(text, b' ') {
        Some(end) => (&text[..end], Some(&text[end + 1..])),
        None => (text, None),
    }
}

fn unit_in(word: &[u8]) -> Option<u8>
    ensures { result ≡ unit_in word.now }
{
    match word {
        [b @ b'0'..=b'3'] => Some(*b - b'0'),
        _ => None,
    }
}

/// Whether a mount is to be written.
fn access_in(word: &[u8]) -> Option<bool>
    ensures { result ≡ access_in word.now }
{
    if is_word(word, b"WRITE") {
        Some(true)
    } else if is_word(word, b"READ") {
        Some(false)
    } else {
        None
    }
}

fn asked_to_mount(
    verb: &[u8],
    vm: &[u8],
    unit: &[u8],
    volume: &[u8],
    access: &[u8],
) -> Option<NamedCommand>
    ensures { result ≡ asked_of (verb.now ∷ vm.now ∷ unit.now ∷ volume.now ∷ access.now ∷ []) }
{
    if !is_word(verb, b"MOUNT") {
        return None;
    }
    let vm = object_name(vm)?;
    let unit = unit_in(unit)?;
    let volume = object_name(volume)?;
    let write = access_in(access)?;
    Some(NamedCommand::Mount(vm, unit, volume, write))
}

fn asked_to_dismount(verb: &[u8], vm: &[u8], unit: &[u8]) -> Option<NamedCommand>
    ensures { result ≡ asked_of (verb.now ∷ vm.now ∷ unit.now ∷ []) }
{
    if !is_word(verb, b"DISMOUNT") {
        return None;
    }
    let vm = object_name(vm)?;
    let unit = unit_in(unit)?;
    Some(NamedCommand::Dismount(vm, unit))
}

/// What is asked where a guest and a unit are named, and these words follow.
fn after_unit(verb: &[u8], vm: &[u8], unit: &[u8], rest: Option<&[u8]>) -> Option<NamedCommand>
    ensures { result ≡ asked_of (verb.now ∷ vm.now ∷ unit.now ∷ rest_words (option_copied rest.entry)) }
{
    let Some(rest) = rest else {
        return asked_to_dismount(verb, vm, unit);
    };
    let (volume, rest) = cut(rest);
    let (access, rest) = cut(rest?);
    match rest {
        None => asked_to_mount(verb, vm, unit, volume, access),
        Some(_) => None,
    }
}

fn asked_of_guest(verb: &[u8], vm: &[u8]) -> Option<NamedCommand>
    ensures { result ≡ asked_of (verb.now ∷ vm.now ∷ []) }
{
    let vm = object_name(vm)?;
    if is_word(verb, b"CONNECT") {
        Some(NamedCommand::Connect(vm))
    } else if is_word(verb, b"START") {
        Some(NamedCommand::Start(vm))
    } else if is_word(verb, b"HALT") {
        Some(NamedCommand::Halt(vm))
    } else {
        None
    }
}

/// What is asked where a guest is named, and these words follow.
fn after_guest(verb: &[u8], vm: &[u8], rest: Option<&[u8]>) -> Option<NamedCommand>
    ensures { result ≡ asked_of (verb.now ∷ vm.now ∷ rest_words (option_copied rest.entry)) }
{
    let Some(rest) = rest else {
        return asked_of_guest(verb, vm);
    };
    let (unit, rest) = cut(rest);
    after_unit(verb, vm, unit, rest)
}

fn asked_alone(verb: &[u8]) -> Option<NamedCommand>
    ensures { result ≡ asked_of (verb.now ∷ []) }
{
    if is_word(verb, b"SHOW") {
        Some(NamedCommand::Show)
    } else {
        None
    }
}

#[tactic(auto, unfolding(crate::specs::CommandLine::asked_in))]
fn read(text: &[u8]) -> Option<NamedCommand>
    ensures { result ≡ asked_in text.now }
{
    let (verb, rest) = cut(text);
    let Some(rest) = rest else {
        return asked_alone(verb);
    };
    let (vm, rest) = cut(rest);
    after_guest(verb, vm, rest)
}

/// What a line asks for; `None` exactly where it is no command.
pub fn asked_in(text: &[u8]) -> Option<NamedCommand>
    ensures value { result ≡ asked_in text.now }
    ensures exact { IfSome result (λ asked. Asks text.now asked) }
{
    read(text)
}

/// The reading of a line is exact: it gives the command whose words the line has, where there is one.
pub fn lines_law()
    ensures read { (text : List ℕ) (asked : Question) → Asks text asked → asked_in text ≡ Some asked }
    ensures written { (text : List ℕ) → IfSome (asked_in text) (λ asked. Asks text asked) }
{}
