ghost use Rattle.vv_base.specs.Bits.{is_set};
ghost use Rattle.std.specs.Prelude.{◌≡◌, ◌<◌, length};
ghost use Rattle.sys_flow.specs.Relation.{reads};

use arrayvec::ArrayVec;
use std::marker::Model;

/// Which object is reached from which, by their numbers.
#[derive(Drop)]
pub struct Reach {
    /// A row for each object: bit b is set where object b is reached from it.
    rows: ArrayVec<u128, 97>,
}

impl Model for Reach {
    ghost use Rattle.std.specs.Prelude.{List, ℕ};

    ghost Value = { List ℕ };

    ghost view = { λ r. r.rows.items };
}

pub fn is_set(row: u128, k: u8) -> bool
    requires { k < 128 }
    ensures { result ≡ is_set row k }
{
    row >> u32::from(k) & 1 == 1
}

impl Reach {
    /// At most 97 rows of as many bits.
    pub(crate) fn of_rows(rows: ArrayVec<u128, 97>) -> Self
        ensures { result ≡ rows.items }
    {
        Reach { rows }
    }

    /// Whether object `b` is reached from object `a`, by one edge or more.
    pub fn has(&self, a: u8, b: u8) -> bool
        requires from { a < length self.now }
        requires to { b < length self.now }
        ensures { result ≡ reads self.now a b }
    {
        is_set(self.rows.as_slice()[usize::from(a)], b)
    }
}
