ghost use Rattle.std.specs.Prelude.{◌≡◌, ◌<◌, map, slice_index_or, vec_len};
ghost use Rattle.std.proofs.lemmas.List.{length-map};
ghost use Rattle.std.proofs.Common.{arith};

use crate::{Line, LineFault, Lines};

/// 32 lines of one kind.
#[derive(Drop)]
pub struct LineList<T: Line> {
    list: Vec<T>,
    ghost all: { vec_len list ≡ 32 },
}

impl<T: Line> LineList<T> {
    /// These lines, the first with number 0.
    pub fn new(list: Vec<T>) -> LineList<T>
        requires { vec_len list ≡ 32 }
        ensures { result.list ≡ list }
    {
        LineList { list }
    }

    /// The lines, in their order.
    pub fn as_slice(&self) -> &[T]
        ensures { result.now ≡ self.now.list.items }
    {
        &self.list
    }
}

impl<T: Line> Lines for LineList<T> {
    ghost lines = { λ these. map T.seen these.list.items };

    fn put_on(&mut self, line: u8, bytes: &[u8]) -> Result<(), LineFault> {
        let one = &mut self.list[line as usize];
        one.put(bytes)
    }

    fn shown_len_of(&self, line: u8) -> u64 {
        self.list[line as usize].shown_len()
    }

    fn read_back_from(&mut self, line: u8, place: u64, into: &mut [u8; 512]) -> usize {
        let one = &mut self.list[line as usize];
        one.read_back(place, into)
    }

    fn sync_line(&mut self, line: u8) -> Result<(), LineFault> {
        let one = &mut self.list[line as usize];
        one.sync()
    }

    ghost count = { λ these. Prim.omega (arith, length-map these.list.items T.seen, these.list.ok.0, these.all) };
}
