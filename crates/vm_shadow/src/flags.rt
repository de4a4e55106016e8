ghost use Rattle.std.specs.Prelude.{◌≡◌, slice_set};
ghost use Rattle.vm_shadow.specs.Flags.{with_flags};
ghost use Rattle.vm_shadow.specs.Shadowed.{is_flagged};

use crate::Source;

/// Whether a frame of the guest is flagged.
pub fn is_flagged(flags: &[bool], frame: u32) -> bool
    ensures { result ≡ is_flagged frame flags.now }
{
    flags.get(frame as usize).copied().unwrap_or(false)
}

/// Flags a frame, or takes its flag away.
#[tactic(auto, using(crate::proofs::Flagging::no_flag))]
pub fn set_flag(flags: &mut Vec<bool>, frame: u32, value: bool)
    ensures { flags.new.items ≡ slice_set flags.old.items frame value }
{
    let at = frame as usize;
    if at < flags.len() {
        flags[at] = value;
    }
}

/// Flags each frame that a source has, or takes their flags away.
pub fn set_flags(flags: &mut Vec<bool>, source: Source, value: bool)
    ensures { flags.new.items ≡ with_flags value source flags.old.items }
{
    match source {
        Source::Direct => {}
        Source::System { entry } => set_flag(flags, entry, value),
        Source::Process { entry, table } => {
            set_flag(flags, entry, value);
            set_flag(flags, table, value);
        }
    }
}
