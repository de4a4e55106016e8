//! Ports: what is shown is kept in order, as far as it fits.

ghost use Rattle.std.specs.Prelude.{◌≡◌, ◌+◌, ◌≤◌, ◌++◌, IsFalse, IfOk, length, false};

use arrayvec::ArrayVec;
use std::alloc::Global;
use std::process::Abort;
use std::test::Fail;
use vm_console::{KeptPort, NullPort, Port, show_all};
use vv_base::NoMemory;

/// A port that keeps its first 8 bytes, and from the ninth on claims nothing.
#[derive(Drop)]
struct Kept {
    bytes: ArrayVec<u8, 8>,
    full: bool,
}

impl Port for Kept {
    ghost may = { λ kept given. IsFalse kept.full → kept.bytes.items ≡ given };

    fn show(&mut self, byte: u8) {
        if self.bytes.try_push(byte).is_err() {
            self.full = true;
        }
    }
}

#[test]
fn shows_in_order(rt: HostRuntime) {
    let mut kept = Kept {
        bytes: ArrayVec::new(),
        full: false,
    };
    show_all(&mut kept, b"VM");
    show_all(&mut kept, b" UP");
    assert!(rt; kept.bytes.as_slice() == b"VM UP".as_slice());
    show_all(&mut NullPort, b"VM");
}

/// What two shows give to a cleared port, where both fit.
fn kept_after<const N: usize>(port: &mut KeptPort<N>, front: &[u8], back: &[u8])
    requires { length front.now + length back.now ≤ N }
    ensures { port.new ≡ record { bytes = front.now ++ back.now; is_cut = false } }
{
    port.clear();
    show_all(port, front);
    show_all(port, back);
}

/// A new port with a large room, after one show.
fn new_after(alloc: Global, text: &[u8]) -> Result<KeptPort<131_072>, NoMemory>
    requires { length text.now ≤ 131072 }
    ensures { IfOk result (λ port. port.bytes ≡ text.now) }
{
    let mut port = KeptPort::new(alloc)?;
    show_all(&mut port, text);
    Ok(port)
}

/// A text that is shown; and the bytes that the port keeps after it, and whether it is cut.
type Show = (&'static str, &'static str, bool);

static SHOWS: [Show; 5] = [
    ("VM", "VM", false),
    (" UP", "VM UP", false),
    ("", "VM UP", false),
    ("!", "VM UP", true),
    ("?", "VM UP", true),
];

/// A row's text is shown, and kept as the row says.
fn check_show(rt: &impl Abort, port: &mut KeptPort<5>, row: &Show) {
    let (text, kept, is_cut) = row;
    show_all(port, text.as_bytes());
    assert!(rt; port.bytes() == kept.as_bytes(), "{text}");
    assert!(rt; port.is_cut() == *is_cut, "{text}");
}

#[test]
fn keeps_what_fits(rt: HostRuntime) -> Result<(), Fail> {
    let mut port = KeptPort::<5>::new(rt.alloc())?;
    for row in &SHOWS {
        check_show(&rt, &mut port, row);
    }
    port.clear();
    assert_eq!(rt; port.bytes().len(), 0);
    assert!(rt; !port.is_cut());
    Ok(())
}

#[test]
fn keeps_the_same_when_cleared(rt: HostRuntime) -> Result<(), Fail> {
    let mut port = KeptPort::<5>::new(rt.alloc())?;
    show_all(&mut port, b"VM UP!");
    kept_after(&mut port, b"VM", b" UP");
    assert!(rt; port.bytes() == b"VM UP".as_slice());
    Ok(())
}

#[test]
fn keeps_all_in_a_large_room(rt: HostRuntime) -> Result<(), Fail> {
    let port = new_after(rt.alloc(), b"VM")?;
    assert!(rt; port.bytes() == b"VM".as_slice());
    Ok(())
}
