ghost use Rattle.std.specs.Prelude.{◌≡◌, ◌≤◌, ◌<◌, ℕ, length, slice_index, vec_len};

use crate::kept::Kept;
use std::alloc::Global;
use vv_base::NoMemory;

/// How many places there are at most.
const PLACES: usize = 65536;

/// How many numbers the index has.
const INDEXED: usize = 1048576;

/// The cache of decoded instructions, each found by its address. Two addresses may share a place, and memory may change: what is
/// found is a guess, to be compared with memory.
#[derive(Drop)]
pub struct Code {
    /// Which place an address has; 0 where it has none yet.
    index: Vec<u16>,
    /// In the order in which the addresses came up, after one that belongs to none.
    pub places: Vec<Kept>,
    ghost indexed: { length index.items ≡ 1048576 },
    ghost some: { 0 < length places.items },
    ghost inside: { (i : ℕ) → slice_index index.items i < length places.items },
}

/// Where an address is in the index: system addresses lie between the others, so that those of equal low bits share nothing.
#[inline(always)]
fn in_index(pc: u32) -> usize
    ensures { result < 1048576 }
{
    pc.rotate_left(1) as usize % INDEXED
}

impl Code {
    /// Nothing is kept yet. Memory is taken for all places, and isn't touched before they are used.
    pub fn nothing(alloc: Global) -> Result<Code, NoMemory> {
        let mut places = Vec::with_capacity(alloc, PLACES)?;
        places.push(Kept::wait())?;
        Ok(Code {
            index: vec![in alloc; 0; INDEXED]?,
            places,
        })
    }

    /// What may be kept of the instruction at an address.
    #[inline(always)]
    pub fn at(&self, pc: u32) -> &Kept {
        &self.places[usize::from(self.index[in_index(pc)])]
    }

    /// Drops all instructions.
    fn forget(&mut self)
        ensures { vec_len self.new.places ≤ 1 }
    {
        self.index.fill(0);
        self.places.truncate(1);
    }

    /// A new place, which this number of the index gets. Where all are taken, all are dropped first.
    #[cold]
    #[inline(never)]
    fn new_place(&mut self, at: usize) -> usize
        requires { at < 1048576 }
        ensures { result < length self.new.places.items }
    {
        if self.places.len() >= PLACES {
            self.forget();
        }
        let place = self.places.len();
        if self.places.push(Kept::wait()).is_err() {
            return 0;
        }
        self.index[at] = place as u16;
        place
    }

    /// The place of an address, which gets one if it has none.
    pub fn place_for(&mut self, pc: u32) -> usize
        ensures { result < length self.new.places.items }
    {
        let at = in_index(pc);
        if self.index[at] != 0 {
            return usize::from(self.index[at]);
        }
        self.new_place(at)
    }
}
