ghost use Rattle.std.specs.Prelude.{◌≡◌, ◌≤◌, ◌<◌, IfSome, length, bytes_eq};
ghost use Rattle.std.specs.List.{position};
ghost use Rattle.sys_config.specs.Guests.{place_named};

use crate::{PrinterRow, Terminal, VolumeRow};
use vv_base::Name;

/// An object that entries name.
pub trait Named {
    ghost use Rattle.std.specs.Prelude.{List, ℕ};

    ghost name_of: { Self → List ℕ };

    fn name(&self) -> &Name
        ensures { result.now ≡ name_of self.now };
}

impl Named for Terminal {
    ghost name_of = { λ t. t.name };

    fn name(&self) -> &Name {
        &self.name
    }
}

impl Named for VolumeRow {
    ghost name_of = { λ v. v.name };

    fn name(&self) -> &Name {
        &self.name
    }
}

impl Named for PrinterRow {
    ghost name_of = { λ p. p.name };

    fn name(&self) -> &Name {
        &self.name
    }
}

fn position_of<R: Named>(rows: &[R], name: &[u8]) -> Option<usize>
    ensures value { result ≡ position (λ r. bytes_eq name.now (R.name_of r)) rows.now }
    ensures within { IfSome result (λ i. i < length rows.now) }
{
    rows.iter().position(|r| name == r.name().bytes())
}

/// The place of the object that has a name, or the number of the objects.
pub fn place_by<R: Named>(rows: &[R], name: &[u8]) -> u8
    requires { length rows.now ≤ 32 }
    ensures { result ≡ place_named R.name_of rows.now name.now }
{
    match position_of(rows, name) {
        Some(place) => place as u8,
        None => rows.len() as u8,
    }
}
