ghost use Rattle.std.specs.Prelude.{◌≡◌, ◌<◌, List, length, slice_index_or};
ghost use Rattle.vv_io.specs.Lines.{Counts, PutsOn, ReadsBack, Seen, SyncsOn, unseen};

use crate::LineFault;

/// The 32 lines to the outside, by their numbers.
pub trait Lines: Drop {
    /// What each of them has shown, where that is known, and how often it has failed.
    ghost lines: { Self → List Seen };

    /// Puts bytes on a line; all others stay.
    fn put_on(&mut self, line: u8, bytes: &[u8]) -> Result<(), LineFault>
        requires { line < 32 }
        ensures { PutsOn line (lines self.old) (lines self.new) bytes.now result };

    /// How many bytes a line has shown, where they are known.
    fn shown_len_of(&self, line: u8) -> u64
        requires { line < 32 }
        ensures { Counts (slice_index_or (lines self.now) line unseen).shown result };

    /// Reads back what a line has shown, from a place on, and answers how many bytes are in `into`; all lines stay.
    fn read_back_from(&mut self, line: u8, place: u64, into: &mut [u8; 512]) -> usize
        requires { line < 32 }
        ensures stays { lines self.new ≡ lines self.old }
        ensures reads { ReadsBack (slice_index_or (lines self.old) line unseen).shown place into.new result };

    /// Syncs a line; all others stay.
    fn sync_line(&mut self, line: u8) -> Result<(), LineFault>
        requires { line < 32 }
        ensures { SyncsOn line (lines self.old) (lines self.new) result };

    ghost count: { (these : Self) → length (lines these) ≡ 32 };
}
