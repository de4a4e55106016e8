ghost use Rattle.vvmm_laws.specs.Machine.{ChangesWhatItReads, DependsOnWhatItReads, ReadsAtTheSamePlaces};

/// The outcome of an instruction on the machine depends on memory only by the bytes that it asks for and by the table
/// longwords of its walks.
pub fn instructions_depend_on_what_they_read()
    ensures { DependsOnWhatItReads }
{}

/// A machine that has the same bytes there reads the same places.
pub fn reads_are_at_the_same_places()
    ensures { ReadsAtTheSamePlaces }
{}

/// An instruction that retires changes memory only at places that it reads.
pub fn instructions_change_what_they_read()
    ensures { ChangesWhatItReads }
{}
