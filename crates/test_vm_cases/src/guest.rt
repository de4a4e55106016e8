//! A case of a guest is played.

ghost use Rattle.std.specs.Prelude.{IfOk, IfSome};
ghost use Rattle.vm_guest.specs.Kept.{IsShadowedIn};

use crate::case::{Case, Difference, Ground};
use std::alloc::Global;
use test_vm_stage::{Place, Quanta, Snapshot, Stage};
use vv_base::NoMemory;

/// The guest before the steps; none where it can't have all that is said of it.
fn stage_of(alloc: Global, case: &Case) -> Result<Option<Stage>, NoMemory>
    ensures { IfOk result (λ found. IfSome found (λ stage. IsShadowedIn stage.machine.memory stage.guest)) }
{
    let mut stage = match case.ground {
        Ground::Unmapped => Stage::set_up(alloc, false)?,
        Ground::Mapped => Stage::set_up(alloc, true)?,
        Ground::Starting | Ground::Machine => Stage::new(alloc, 16, 0x200)?,
    };
    if stage.put(0x200, &case.code) && stage.put_all(&case.before) {
        Ok(Some(stage))
    } else {
        Ok(None)
    }
}

/// What is to be there after the steps, where this was there before: of UPTIME each step but those of a guest that has stopped
/// counts, and all else that the case doesn't name is as it was.
fn want(case: &Case, there: &mut Snapshot) {
    let [.., stopped] = case.kinds;
    let steps = u64::from(there.at(Place::Steps)) + u64::from(case.steps());
    let count = steps.wrapping_sub(stopped) % 0x1_0000_0000;
    there.put(Place::Steps, count as u32);
    there.put_all(&case.after);
}

/// What differs from a case, if anything, where the steps are taken so.
pub fn compare(alloc: Global, case: &Case, quanta: Quanta) -> Result<Option<Difference>, NoMemory> {
    let Some(mut stage) = stage_of(alloc, case)? else {
        return Ok(Some(Difference::SetUp));
    };
    let mut wanted = Snapshot::of(alloc, &stage)?;
    want(case, &mut wanted);
    let kinds = stage.play(case.steps(), quanta);
    let found = Snapshot::of(alloc, &stage)?;
    let [plain, ..] = case.kinds;
    if kinds != case.kinds {
        Ok(Some(Difference::Kinds(kinds)))
    } else if stage.port.bytes() != case.shown.as_slice() {
        Ok(Some(Difference::Shown))
    } else if stage.retired() != plain {
        Ok(Some(Difference::Retired(stage.retired())))
    } else {
        Ok(
            found.difference(&wanted).map(|place| Difference::At {
                place,
                found: found.at(place),
                wanted: wanted.at(place),
            }),
        )
    }
}
