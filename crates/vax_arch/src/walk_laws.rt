ghost use Rattle.vax_arch.specs.WalkLaws.{LooksAligned, LooksAtOne, LooksInside};

/// The places of the entries that a look-up finds lie in memory.
pub fn lookups_are_inside()
    ensures { LooksInside }
{}

/// Where the tables' bases are multiples of 4, so are the places of entries: each entry lies in one frame.
pub fn lookups_are_aligned()
    ensures { LooksAligned }
{}

/// A look-up depends on the memory at most by one longword, whose place the registers alone decide.
pub fn lookups_read_one_longword()
    ensures { LooksAtOne }
{}
