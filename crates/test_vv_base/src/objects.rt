ghost use Rattle.std.specs.Prelude.{◌≡◌, ◌≢◌, ◌<◌, length, map, vec_len, slice_index_or, None, IfOk, OnErr};
ghost use Rattle.vv_io.specs.Blocks.{unkept};
ghost use Rattle.vv_io.specs.Causes.{Rose};
ghost use Rattle.vv_io.specs.Lines.{unseen};

use std::alloc::Global;
use std::process::Abort;
use std::test::Fail;
use vv_base::{FileName, file_name};
use vv_io::{
    Cut, Drive, DriveFault, EmptyDrive, Line, LineFault, LineList, Lines, MemDrive, MemLine,
    MemShelf, Shelf, ShelfFault, set_on,
};

/// A put on line `k` leaves line `j` as it was.
fn put_beside<L: Lines>(lines: &mut L, k: u8, j: usize, bytes: &[u8]) -> Result<(), LineFault>
    requires line { k < 32 }
    requires other { j ≢ k }
    ensures { slice_index_or (L.lines lines.new) j unseen ≡ slice_index_or (L.lines lines.old) j unseen }
{
    lines.put_on(k, bytes)
}

/// A line of which nothing is known is so after a put, and a put that fails raises its count.
fn put_untold<L: Line>(line: &mut L, bytes: &[u8]) -> Result<(), LineFault>
    requires { (L.seen line.old).shown ≡ None }
    ensures untold { (L.seen line.new).shown ≡ None }
    ensures rose { OnErr result (Rose (L.seen line.old).faults (L.seen line.new).faults) }
{
    line.put(bytes)
}

/// A set on drive `k` leaves drive `j` as it was.
fn set_beside(
    drives: &mut Vec<Box<dyn Drive>>,
    k: usize,
    j: usize,
    from: &[u8; 512],
) -> Result<(), DriveFault>
    requires drive { k < vec_len drives.old }
    requires block { 0 < (slice_index_or (map (λ d. kept d) drives.old.items) k unkept).size }
    requires other { j ≢ k }
    ensures same { slice_index_or (map (λ d. kept d) drives.new.items) j unkept ≡ slice_index_or (map (λ d. kept d) drives.old.items) j unkept }
{
    set_on(drives, k, 0, from)
}

/// A line with room for six bytes, whose second call is cut after one.
fn cut_line(alloc: Global) -> Result<MemLine, Fail> {
    let mut cuts = Vec::new(alloc);
    cuts.push(Cut { call: 2, after: 1 })?;
    cuts.push(Cut { call: 2, after: 3 })?;
    Ok(MemLine::new(alloc, 6, cuts)?)
}

/// What is put, what the line answers, and what it shows then.
type Put = (&'static str, Result<(), LineFault>, &'static str);

/// The four puts, in order.
static PUTS: [Put; 4] = [
    ("abcd", Ok(()), "abcd"),
    ("xyz", Err(LineFault), "abcdx"),
    ("", Ok(()), "abcdx"),
    ("yz", Err(LineFault), "abcdxy"),
];

/// A put has its answer, and the line shows its bytes.
fn is_put(rt: &impl Abort, line: &mut MemLine, row: &Put) {
    let (bytes, answer, shown) = *row;
    assert!(rt; Line::put(line, bytes.as_bytes()) == answer, "{bytes}");
    assert!(rt; line.shown() == shown.as_bytes());
}

#[test]
fn lines_are_cut_by_call_and_by_room(rt: HostRuntime) -> Result<(), Fail> {
    let mut line = cut_line(rt.alloc())?;
    for row in &PUTS {
        is_put(&rt, &mut line, row);
    }
    assert!(rt; line.told() == Some(b"abcdxy".as_slice()));
    Ok(())
}

fn named(text: &str) -> FileName {
    file_name(text.as_bytes()).unwrap_or(FileName::new())
}

/// Puts a file of these bytes on a list.
fn push_file(files: &mut Vec<(FileName, Vec<u8>)>, name: &str, bytes: Vec<u8>) -> Result<(), Fail> {
    files.push((named(name), bytes))?;
    Ok(())
}

/// Two files of one name, and one that is too long.
fn files(alloc: Global) -> Result<Vec<(FileName, Vec<u8>)>, Fail> {
    let mut files = Vec::new(alloc);
    push_file(&mut files, "a", b"first".to_vec(alloc)?)?;
    push_file(&mut files, "a", b"second".to_vec(alloc)?)?;
    push_file(&mut files, "long", vec![in alloc; 0; 16_777_217]?)?;
    Ok(files)
}

/// A shelf of these files, whose second call fails.
fn shelf(alloc: Global) -> Result<MemShelf, Fail> {
    let mut failing = Vec::new(alloc);
    failing.push(2)?;
    Ok(MemShelf::new(files(alloc)?, failing))
}

/// A name, and the length of its file or the fault.
type Fetch = (&'static str, Result<usize, ShelfFault>);

/// The four fetches, in order.
static FETCHES: [Fetch; 4] = [
    ("a", Ok(5)),
    ("a", Err(ShelfFault::Failed)),
    ("b", Err(ShelfFault::Missing)),
    ("long", Err(ShelfFault::TooLong)),
];

/// A file of the length is fetched, or the fault is answered.
fn is_fetched(rt: &impl Abort, alloc: Global, shelf: &mut MemShelf, row: &Fetch) {
    let (name, length) = *row;
    let answer = shelf.fetch(alloc, &named(name));
    assert!(rt; answer.map(|bytes| bytes.len()) == length, "{name}");
}

#[test]
fn a_shelf_answers_by_name_and_call(rt: HostRuntime) -> Result<(), Fail> {
    let mut shelf = shelf(rt.alloc())?;
    for row in &FETCHES {
        is_fetched(&rt, rt.alloc(), &mut shelf, row);
    }
    Ok(())
}

/// A drive of two blocks, whose second call fails.
fn drive_of_two(alloc: Global) -> Result<MemDrive, Fail>
    ensures { IfOk result (λ m. length m.blocks ≡ 2) }
{
    let mut blocks = Vec::new(alloc);
    blocks.push([0; 512])?;
    blocks.push([1; 512])?;
    let mut failing = Vec::new(alloc);
    failing.push(2)?;
    Ok(MemDrive::new(blocks, failing))
}

/// A block is set and then got, but for the call that fails.
fn is_set_and_got(rt: &impl Abort, drive: &mut MemDrive)
    requires { length drive.old.blocks ≡ 2 }
    ensures { length drive.new.blocks ≡ 2 }
{
    let mut into = [9; 512];
    assert!(rt; drive.set(1, &[7; 512]) == Ok(()));
    assert!(rt; drive.get(1, &mut into) == Err(DriveFault));
    assert!(rt; into[0] == 9);
    assert!(rt; drive.get(1, &mut into) == Ok(()));
    assert!(rt; into[511] == 7);
    assert!(rt; drive.content()[0][0] == 0);
}

/// A list of an empty drive and of this one.
fn listed(alloc: Global, drive: MemDrive) -> Result<Vec<Box<dyn Drive>>, Fail>
    ensures { IfOk result (λ drives. vec_len drives ≡ 2) }
{
    let mut drives: Vec<Box<dyn Drive>> = Vec::new(alloc);
    drives.push(Box::new(alloc, EmptyDrive)?)?;
    drives.push(Box::new(alloc, drive)?)?;
    Ok(drives)
}

#[test]
fn boxed_drives_stand_in_lists(rt: HostRuntime) -> Result<(), Fail> {
    let mut drive = drive_of_two(rt.alloc())?;
    is_set_and_got(&rt, &mut drive);
    let drives = listed(rt.alloc(), drive)?;
    assert!(rt; drives[0].blocks() == 0);
    assert!(rt; drives[1].blocks() == 2);
    Ok(())
}

/// 32 lines with room for nine bytes each.
fn short_lines(alloc: Global) -> Result<LineList<MemLine>, Fail> {
    let mut list = Vec::new(alloc);
    for _number in 0..32u8 {
        list.push(MemLine::new(alloc, 9, Vec::new(alloc))?)?;
    }
    Ok(LineList::new(list))
}

#[test]
fn lines_have_numbers(rt: HostRuntime) -> Result<(), Fail> {
    let mut lines = short_lines(rt.alloc())?;
    assert!(rt; lines.put_on(1, b"here") == Ok(()));
    assert!(rt; lines.as_slice()[0].told() == Some(b"".as_slice()));
    assert!(rt; lines.as_slice()[1].told() == Some(b"here".as_slice()));
    Ok(())
}
