//! The kernel's calls for a guest of 64 pages from page 900 on, which starts at 300.

ghost use Rattle.std.specs.Prelude.{◌≡◌, IfOk};
ghost use Rattle.vm_guest.specs.Kept.{IsShadowedIn};

use std::alloc::Global;
use std::process::Abort;
use std::test::Fail;
use vax_cpu::Cpu;
use vm_console::KeptPort;
use vm_guest::Guest;
use vm_state::{StopCode, StopReason};
use vv_base::NoMemory;

/// The guest, which stands.
fn standing(alloc: Global) -> Result<(Cpu, Guest), NoMemory>
    ensures stands { IfOk result (λ x. IsShadowedIn x.0.memory x.1) }
    ensures pages { IfOk result (λ x. x.1.state.pages ≡ 64) }
{
    let mut machine = Cpu::new(alloc, 1024)?;
    let guest = Guest::new(alloc, &mut machine, 64, 900, 0, 0x300, true)?;
    Ok((machine, guest))
}

/// It has halted for this reason, and its port shows this.
fn check_halt(
    rt: &impl Abort,
    guest: &Guest,
    port: &KeptPort<64>,
    reason: StopReason,
    shown: &[u8],
) {
    assert!(rt; port.bytes() == shown);
    assert!(rt; guest.state().halt == Some(StopCode(reason)));
}

/// One that stands says nothing; one that was started says where.
#[test]
fn one_that_is_stopped_says_where(rt: HostRuntime) -> Result<(), Fail> {
    let (mut machine, mut guest) = standing(rt.alloc())?;
    let mut port = KeptPort::<64>::new(rt.alloc())?;
    guest.stop(&mut port);
    check_halt(&rt, &guest, &port, StopReason::NeverStarted, b"");
    guest.start(&mut machine);
    assert!(rt; guest.state().r[15] == 0x300);
    guest.stop(&mut port);
    check_halt(
        &rt,
        &guest,
        &port,
        StopReason::Commanded,
        b"?02 00000300\r\n",
    );
    Ok(())
}

#[test]
fn lines_transfers_and_bytes_come_from_without(rt: HostRuntime) -> Result<(), Fail> {
    let (mut machine, mut guest) = standing(rt.alloc())?;
    guest.start(&mut machine);
    guest.type_line(b"HI");
    assert!(rt; guest.state().console.read_rxcs() == 0x80);
    guest.post_kcall();
    assert!(rt; guest.state().kcall_due);
    assert!(rt; guest.take_queue().len() == 0);
    guest.store(&mut machine, 0x7FFD, &[1, 2, 3]);
    let mut bytes = [9; 5];
    guest.fetch_into(&machine, 0x7FFB, &mut bytes);
    assert!(rt; bytes == [0, 0, 1, 2, 3]);
    Ok(())
}

/// MTPR #280, #KCALL, after which come zeros: a packet waits, and one that starts has none.
#[test]
fn a_start_forgets_what_waits(rt: HostRuntime) -> Result<(), Fail> {
    let (mut machine, mut guest) = standing(rt.alloc())?;
    let mut port = KeptPort::<64>::new(rt.alloc())?;
    guest.store(
        &mut machine,
        0x300,
        &[0xDA, 0x8F, 0x80, 0x02, 0, 0, 0x8F, 0xC8],
    );
    guest.start(&mut machine);
    let _ = guest.advance(&mut machine, &mut port, 1);
    assert!(rt; guest.state().queue.as_slice() == [0x280].as_slice());
    guest.start(&mut machine);
    assert!(rt; guest.state().r[15] == 0x300);
    assert!(rt; guest.take_queue().len() == 0);
    Ok(())
}
