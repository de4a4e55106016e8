ghost use Rattle.std.specs.Prelude.{◌≡◌};
ghost use Rattle.std.specs.Prelude.{◌==◌, Some};
ghost use Rattle.std.specs.List.{list_any};
ghost use Rattle.vv_io.specs.Causes.{saturated_successor};
ghost use Rattle.vv_io.specs.Lines.{ReadsBack};

/// One more, where a u64 holds it.
pub fn counted(n: u64) -> u64
    ensures { result ≡ saturated_successor n }
{
    n.saturating_add(1)
}

/// Whether a list names a call's number.
pub fn is_named(failing: &[u32], call: u64) -> bool
    ensures { result ≡ list_any (λ number. number == call) failing.now }
{
    failing.iter().any(|number| u64::from(*number) == call)
}

/// What is there from a place on, in as many bytes as there are, at most 512.
pub fn copy_from(shown: &[u8], place: u64, into: &mut [u8; 512]) -> usize
    ensures { ReadsBack (Some shown.now) place into.new result }
{
    let from = place.min(shown.len() as u64) as usize;
    let rest = &shown[from..];
    let count = rest.len().min(512);
    into[..count].copy_from_slice(&rest[..count]);
    count
}
