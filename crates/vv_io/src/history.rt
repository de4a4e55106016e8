ghost use Rattle.std.specs.Prelude.{◌≡◌, [], ◌∷◌, ◌++◌};

use std::marker::Model;
use std::snapshot::Snapshot;

/// Values that were noted, in their order, which only clauses see: it keeps none of their bytes.
#[cycle(history)]
#[derive(Drop)]
pub struct History<T> {
    last: Noted<T>,
}

/// The value that was noted last, after those before it.
#[cycle(history)]
#[derive(Drop)]
enum Noted<T> {
    Nothing,
    After(Snapshot<History<T>>, Snapshot<T>),
}

impl<T> Model for History<T> {
    ghost use Rattle.std.specs.Prelude.{List, length};

    ghost Value = { List T };

    ghost use Rattle.vv_io.specs.History.{noted_values};

    ghost view = { λ h. noted_values h.last };

    ghost size = { length };

    ghost use Rattle.std.proofs.Common.{arith, length-append};

    ghost size_decreases = { λ h valid. Prim.grind (arith, length-append) };
}

impl<T> History<T> {
    /// Nothing was noted.
    pub fn new() -> History<T>
        ensures { result ≡ [] }
    {
        History {
            last: Noted::Nothing,
        }
    }

    /// Notes a value as it is now.
    pub fn note(&mut self, value: &T)
        ensures { self.new ≡ self.old ++ value.now ∷ [] }
    {
        self.last = Noted::After(Snapshot::of(self), Snapshot::of(value));
    }
}
