use std::cell::Cell;
use std::process::Abort;
use std::rc::Rc;
use std::rt::Clock;
use std::test::Fail;
use std::time::Duration;
use std::{env, fs, io, process};
use vv_base::{FileName, file_name};
use vv_edge::{
    FileDrive, FileLine, FileShelf, Identity, InputKeys, OutSink, Stored, Ticker, drive_under,
    look, whole_blocks,
};
use vv_io::{
    Drive, DriveFault, Keyboard, Line, LineFault, MemLine, Progress, Shelf, ShelfFault, Sink,
    SinkFault,
};

/// A path of this process in the system's folder for files that don't last.
fn scratch(rt: &HostRuntime, name: &str) -> Result<String, Fail> {
    let folder = env::temp_dir(rt)?;
    let id = process::id(rt.process());
    Ok(format!(in rt.alloc(); "{}/vvmm-{id}-{name}", folder.as_str())?)
}

fn named(text: &str) -> FileName {
    file_name(text.as_bytes()).unwrap_or(FileName::new())
}

/// The length of a file on the shelf.
fn fetched(rt: &HostRuntime, path: &str) -> Result<usize, ShelfFault> {
    let mut shelf = FileShelf::new(rt, &[]);
    shelf
        .fetch(rt.alloc(), &named(path))
        .map(|bytes| bytes.len())
}

/// A file has these bytes from now on; whether it can.
fn write(rt: &HostRuntime, path: &str, bytes: &[u8]) -> bool {
    fs::write(rt, path, bytes).is_ok()
}

/// Whether a file has these bytes.
fn has(rt: &HostRuntime, path: &str, bytes: &[u8]) -> bool {
    fs::read(rt, path).is_ok_and(|found| found.as_slice() == bytes)
}

/// A file goes; whether it could.
fn remove(rt: &HostRuntime, path: &str) -> bool {
    fs::remove_file(rt, path).is_ok()
}

#[test]
fn a_shelf_reads_files(rt: HostRuntime) -> Result<(), Fail> {
    let path = scratch(&rt, "image")?;
    let too_long = vec![in rt.alloc(); 0; 16_777_217]?;
    assert!(rt; write(&rt, path.as_str(), b"bytes"));
    assert!(rt; fetched(&rt, path.as_str()) == Ok(5));
    assert!(rt; write(&rt, path.as_str(), &too_long));
    assert!(rt; fetched(&rt, path.as_str()) == Err(ShelfFault::TooLong));
    assert!(rt; remove(&rt, path.as_str()));
    assert!(rt; fetched(&rt, path.as_str()) == Err(ShelfFault::Missing));
    Ok(())
}

/// The line of a path.
fn line_of(rt: &HostRuntime, path: &str) -> Result<FileLine, Fail> {
    let path = String::from_str(rt.alloc(), path)?;
    Ok(FileLine::new(rt.clone()?, path, true, None))
}

#[test]
fn a_line_writes_a_file(rt: HostRuntime) -> Result<(), Fail> {
    let path = scratch(&rt, "line")?;
    let mut line = line_of(&rt, path.as_str())?;
    assert!(rt; line.sync() == Ok(()));
    assert!(rt; fs::read(&rt, path.as_str()).is_err());
    assert!(rt; line.put(b"one ") == Ok(()));
    assert!(rt; line.put(b"two") == Ok(()));
    assert!(rt; line.told().is_none());
    assert!(rt; line.sync() == Ok(()));
    assert!(rt; has(&rt, path.as_str(), b"one two"));
    assert!(rt; remove(&rt, path.as_str()));
    assert!(rt; line.sync() == Err(LineFault));
    Ok(())
}

/// What a line shows is read back, and it is written on.
fn check_read_back(rt: &impl Abort, line: &mut impl Line) {
    let mut into = [0; 512];
    assert!(rt; line.shown_len() == 0);
    assert!(rt; line.read_back(0, &mut into) == 0);
    assert!(rt; line.put(b"one two") == Ok(()));
    assert!(rt; line.shown_len() == 7);
    assert!(rt; line.read_back(4, &mut into) == 3);
    assert!(rt; into.starts_with(b"two"));
    assert!(rt; line.read_back(7, &mut into) == 0);
    assert!(rt; line.put(b"!") == Ok(()));
}

#[test]
fn a_line_is_read_back_and_written_on(rt: HostRuntime) -> Result<(), Fail> {
    let path = scratch(&rt, "line-read")?;
    let mut line = line_of(&rt, path.as_str())?;
    check_read_back(&rt, &mut line);
    assert!(rt; has(&rt, path.as_str(), b"one two!"));
    assert!(rt; remove(&rt, path.as_str()));
    Ok(())
}

#[test]
fn standard_input_gives_lines(rt: HostRuntime) -> Result<(), Fail> {
    let out = OutSink::new(rt.stdout(), None);
    let mut keys = InputKeys::new(b"ab\r\nc\n\nd".as_slice());
    for line in [b"ab".as_slice(), b"c", b"", b"d"] {
        let given = keys.next(&out).expect(&rt, "a line");
        assert!(rt; given.is_some_and(|given| given.bytes() == line));
    }
    assert!(rt; matches!(keys.next(&out), Ok(None)));
    Ok(())
}

#[test]
fn a_folder_takes_no_line(rt: HostRuntime) -> Result<(), Fail> {
    let folder = env::temp_dir(&rt)?;
    let mut broken = line_of(&rt, folder.as_str())?;
    assert!(rt; broken.put(b"x") == Err(LineFault));
    Ok(())
}

/// The drive of a path.
fn drive_of(rt: &HostRuntime, path: &str) -> Result<FileDrive, Fail> {
    let found = drive_under(&look(rt, path), &[]).and_then(|found| found.ok());
    let stored = Stored {
        drive: 0,
        stored: 0,
        blocks: whole_blocks(&found),
    };
    let path = String::from_str(rt.alloc(), path)?;
    let failed = Rc::new(rt.alloc(), Cell::new([None; 16]))?;
    Ok(FileDrive::new(rt.clone()?, path, found, None, stored, failed))
}

/// A block is stored, and both are read again.
fn check_blocks(rt: &impl Abort, drive: &mut impl Drive) {
    let mut into = [0; 512];
    assert!(rt; drive.blocks() == 2);
    assert!(rt; drive.set(1, &[9; 512]) == Ok(()));
    assert!(rt; drive.get(0, &mut into) == Ok(()));
    assert!(rt; into[511] == 7);
    assert!(rt; drive.get(1, &mut into) == Ok(()));
    assert!(rt; into[0] == 9);
    assert!(rt; drive.sync() == Ok(()));
}

/// A drive whose file isn't what it was leaves what a block is read into, and takes none.
fn check_changed(rt: &impl Abort, drive: &mut impl Drive) {
    let mut into = [9; 512];
    assert!(rt; drive.blocks() == 2);
    assert!(rt; drive.get(1, &mut into) == Err(DriveFault));
    assert!(rt; into[0] == 9);
    assert!(rt; drive.set(0, &into) == Err(DriveFault));
    assert!(rt; drive.sync() == Err(DriveFault));
}

#[test]
fn a_drive_reads_and_writes_blocks(rt: HostRuntime) -> Result<(), Fail> {
    let path = scratch(&rt, "drive")?;
    assert!(rt; drive_of(&rt, path.as_str())?.blocks() == 0);
    assert!(rt; write(&rt, path.as_str(), &[7; 1_024]));
    let mut drive = drive_of(&rt, path.as_str())?;
    check_blocks(&rt, &mut drive);
    assert!(rt; write(&rt, path.as_str(), b"short"));
    check_changed(&rt, &mut drive);
    assert!(rt; remove(&rt, path.as_str()));
    Ok(())
}

#[test]
fn standard_output_takes_bytes(rt: HostRuntime) {
    let output = Identity {
        device: 1,
        number: 2,
    };
    let mut out = OutSink::new(rt.stdout(), Some(output));
    assert!(rt; out.put(b"shown\n") == Ok(()));
    out.keep_from(None);
    assert!(rt; out.put(b"shown\n") == Ok(()));
    out.keep_from(Some(output));
    assert!(rt; out.put(b"not shown\n") == Err(SinkFault));
}

/// A clock that shows a number of seconds.
#[derive(Drop)]
struct Seconds(Cell<u64>);

impl Clock for Seconds {
    fn monotonic(&self) -> io::Result<Duration> {
        Ok(Duration::from_secs(self.0.get()))
    }

    fn since_1970(&self) -> io::Result<Duration> {
        self.monotonic()
    }
}

/// Whether a terminal, or what isn't one, is shown this of four rounds, of which the second ends after `seconds` seconds.
fn is_told(rt: &HostRuntime, is_terminal: bool, seconds: u64, shown: &[u8]) -> Result<bool, Fail> {
    let clock = Seconds(Cell::new(0));
    let mut out = MemLine::new(rt.alloc(), 100, Vec::new(rt.alloc()))?;
    let mut ticker = Ticker::new(&mut out, is_terminal, &clock);
    ticker.made(1, 4);
    clock.0.set(seconds);
    for round in 2..=4 {
        ticker.made(round, 4);
    }
    Ok(out.shown() == shown)
}

#[test]
fn a_ticker_tells_of_a_long_run(rt: HostRuntime) -> Result<(), Fail> {
    let told = b"\rvvmm: round 2 of 4\rvvmm: round 3 of 4\rvvmm: round 4 of 4\n";
    assert!(rt; is_told(&rt, true, 2, told)?);
    assert!(rt; is_told(&rt, true, 1, b"")?);
    assert!(rt; is_told(&rt, false, 2, b"")?);
    Ok(())
}
