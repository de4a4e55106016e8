use std::alloc::Global;
use std::process::Abort;
use std::test::Fail;
use vv_io::{KeyFault, Keyboard, MemKeyboard, MemLine};

/// A line of 1,025 bytes, the last of them another.
fn long_line(alloc: Global) -> Result<Vec<u8>, Fail> {
    let mut line = vec![in alloc; 97; 1024]?;
    line.push(98)?;
    Ok(line)
}

/// A keyboard of three lines, of which the second is long, and whose second call fails.
fn keyboard(alloc: Global) -> Result<MemKeyboard<MemLine>, Fail> {
    let mut lines = Vec::new(alloc);
    lines.push(b"first".to_vec(alloc)?)?;
    lines.push(long_line(alloc)?)?;
    lines.push(b"".to_vec(alloc)?)?;
    let mut failing = Vec::new(alloc);
    failing.push(2)?;
    Ok(MemKeyboard::new(lines, failing))
}

/// The length of the next line and its last byte, or the fault.
fn next_line(
    keyboard: &mut MemKeyboard<MemLine>,
    out: &MemLine,
) -> Result<Option<(usize, Option<u8>)>, KeyFault> {
    let line = keyboard.next(out)?;
    Ok(line.map(|line| (line.bytes().len(), line.bytes().last().copied())))
}

/// What the calls answer, in order.
static ANSWERS: [Result<Option<(usize, Option<u8>)>, KeyFault>; 6] = [
    Ok(Some((5, Some(116)))),
    Err(KeyFault),
    Ok(Some((1024, Some(97)))),
    Ok(Some((0, None))),
    Ok(None),
    Ok(None),
];

#[test]
fn lines_are_given_in_order(rt: HostRuntime) -> Result<(), Fail> {
    let mut keyboard = keyboard(rt.alloc())?;
    let out = MemLine::new(rt.alloc(), 1, Vec::new(rt.alloc()))?;
    for answer in &ANSWERS {
        assert!(rt; next_line(&mut keyboard, &out) == *answer);
    }
    Ok(())
}
