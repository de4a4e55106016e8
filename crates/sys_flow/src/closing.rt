ghost use Rattle.vv_base.specs.Bits.{is_set};
ghost use Rattle.std.specs.Prelude.{◌≡◌, ◌<◌, ◌≤◌, ◌&&◌, ◌||◌, ℕ, length};
ghost use Rattle.sys_flow.specs.Reach.{all_objects, has_edge};
ghost use Rattle.sys_flow.specs.Relation.{IsReach, reads};
ghost use Rattle.sys_objects.specs.Condition.{IsConfig};

use crate::edges::edge;
use crate::objects::count;
use crate::relation::{Reach, is_set};
use arrayvec::ArrayVec;
use sys_objects::Config;

/// The edges of an object.
fn row(c: &Config, a: u8, objects: u8) -> u128
    requires few { objects ≤ 97 }
    requires all { objects ≡ length (all_objects c.now) }
    ensures { (b : ℕ) → is_set result b ≡ has_edge c.now a b }
{
    let mut row = 0u128;
    for b in 0..objects {
        if edge(c, a, b) {
            row |= 1u128 << u32::from(b);
        }
    }
    row
}

fn rows(c: &Config, objects: u8) -> ArrayVec<u128, 97>
    requires few { objects ≤ 97 }
    requires all { objects ≡ length (all_objects c.now) }
    ensures len { length result.items ≡ objects }
    ensures value { (a b : ℕ) → reads result.items a b ≡ has_edge c.now a b }
{
    let mut rows = ArrayVec::new();
    for a in 0..objects {
        rows.push(row(c, a, objects));
    }
    rows
}

/// What object `k` reaches is reached from each object that reaches it.
fn pass(rows: &mut [u128], k: u8)
    requires few { k < 128 }
    requires within { k < length rows.old }
    ensures len { length rows.new ≡ length rows.old }
    ensures value { (a b : ℕ) → reads rows.new a b ≡ (reads rows.old a b || (reads rows.old a k && reads rows.old k b)) }
{
    let beyond = rows[usize::from(k)];
    for row in rows.iter_mut() {
        if is_set(*row, k) {
            *row |= beyond;
        }
    }
}

/// Which object is reached from which. The work is that of as many `u128` as there are pairs of objects, at most 9,409.
pub fn reach(c: &Config) -> Reach
    requires { IsConfig c.now }
    ensures { IsReach c.now result }
{
    let objects = count(c);
    let mut rows = rows(c, objects);
    for k in 0..objects {
        pass(rows.as_mut_slice(), k);
    }
    Reach::of_rows(rows)
}
