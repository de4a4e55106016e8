ghost use Rattle.std.specs.Prelude.{◌≡◌, ◌≤◌, [], ◌∷◌, IfOk, length};
ghost use Rattle.vm_console.specs.Appends.{Appends};
ghost use Rattle.vm_console.specs.Kept.{MayKeep, after_shown, empty};

use crate::Port;
use std::alloc::Global;
use std::marker::Model;
use vv_base::NoMemory;

/// A port that keeps what it is shown, with room for `N` bytes.
#[derive(Drop)]
pub struct KeptPort<const N: usize> {
    kept: Vec<u8>,
    is_cut: bool,
}

impl<const N: usize> Model for KeptPort<N> {
    ghost use Rattle.std.specs.Prelude.{◌≤◌, vec_capacity, vec_len};
    ghost use Rattle.vm_console.specs.Kept.{KeptOutput};

    ghost Value = { KeptOutput };

    ghost view = { λ port. record { bytes = port.kept.items; is_cut = port.is_cut } };

    ghost invariant = { λ port. (vec_len port.kept ≤ N) × (N ≤ vec_capacity port.kept) };
}

impl<const N: usize> KeptPort<N> {
    /// A port that was shown nothing; all its memory is taken here.
    pub fn new(alloc: Global) -> Result<Self, NoMemory>
        ensures { IfOk result (λ port. port ≡ empty) }
    {
        Ok(KeptPort {
            kept: Vec::with_capacity(alloc, N)?,
            is_cut: false,
        })
    }

    /// Clears what was shown.
    pub fn clear(&mut self)
        ensures { self.new ≡ empty }
    {
        self.kept.clear();
        self.is_cut = false;
    }

    /// The first `N` bytes shown since the port was new or last cleared.
    pub fn bytes(&self) -> &[u8]
        ensures value { result.now ≡ self.now.bytes }
        ensures len { length result.now ≤ N }
    {
        &self.kept
    }

    /// Whether more than `N` bytes were shown since then.
    pub fn is_cut(&self) -> bool
        ensures { result ≡ self.now.is_cut }
    {
        self.is_cut
    }
}

impl<const N: usize> Port for KeptPort<N> {
    ghost may = { λ kept given. MayKeep N kept given };

    #[tactic(auto, unfolding(crate::specs::Kept::MayKeep))]
    fn show(&mut self, byte: u8)
        ensures appends { Appends (MayKeep N) self.old self.new (byte ∷ []) }
        ensures exact { self.new ≡ after_shown N self.old byte }
    {
        if self.kept.len() < N {
            let _ = self.kept.push(byte);
        } else {
            self.is_cut = true;
        }
    }
}
