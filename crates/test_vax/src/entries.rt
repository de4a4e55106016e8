use std::process::Abort;
use vax_arch::Pte;

/// An entry, whether it is valid, its code, whether it is modified, and its frame.
type Entry = (u32, bool, u8, bool, u32);

static ENTRIES: [Entry; 3] = [
    (0x9400_0008, true, 2, true, 8),
    (0x2000_0008, false, 4, false, 8),
    (0xf81f_ffff, true, 15, false, 0x1f_ffff),
];

/// A row's entry has its fields.
fn check_fields(rt: &impl Abort, row: &Entry) {
    let (long, valid, prot, modified, frame) = *row;
    let entry = Pte(long);
    assert!(rt; entry.valid() == valid, "{long:x}");
    assert!(rt; entry.prot().0 == prot, "{long:x}");
    assert!(rt; entry.modified() == modified, "{long:x}");
    assert!(rt; entry.frame() == frame, "{long:x}");
}

#[test]
fn fields_of_entries(rt: HostRuntime) {
    for row in &ENTRIES {
        check_fields(&rt, row);
    }
}
