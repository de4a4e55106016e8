//! Misses of the machine in a loop of many steps.

use std::test::Fail;
use test_vm_stage::Place::R;
use test_vm_stage::{Quanta, Stage};

/// MOVL (R1), R0; BRB to it, a thousand steps: two pages are missed at most.
#[test]
fn a_loop_misses_each_page_once(rt: HostRuntime) -> Result<(), Fail> {
    for (first, rest) in [(0, 1000), (1, 999), (500, 500)] {
        let mut stage = Stage::set_up(rt.alloc(), true)?;
        let fits = stage.put(0x200, &[0xD0, 0x61, 0x50, 0x11, 0xFB]);
        assert!(rt; fits);
        let fits = stage.put_all(&[(R(1), 0x1000)]);
        assert!(rt; fits);
        let before = stage.misses();
        let _ = stage.play(first, Quanta::Cut(0));
        let _ = stage.play(rest, Quanta::Cut(0));
        let misses = stage.misses().wrapping_sub(before);
        assert!(rt; misses <= 2, "{misses}");
        assert_eq!(rt; stage.retired(), 1000);
    }
    Ok(())
}
