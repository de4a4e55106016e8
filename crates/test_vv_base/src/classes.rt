use std::process::Abort;
use vv_class::{AccessClass, flows, join};

/// A level of secrecy and its categories, and of integrity.
pub type Parts = (u8, u64, u8, u64);

/// A class of these levels and sets of categories.
pub fn class(parts: Parts) -> AccessClass {
    let (secrecy, secrecy_cats, integrity, integrity_cats) = parts;
    AccessClass {
        secrecy,
        secrecy_cats,
        integrity,
        integrity_cats,
    }
}

/// Low, with one category.
const LOW: Parts = (1, 4, 3, 0);

/// High, with two categories and less integrity.
const HIGH: Parts = (2, 20, 1, 0);

/// A category of integrity alone.
const TRUSTED: Parts = (0, 0, 0, 16);

/// No level and no category.
const PLAIN: Parts = (0, 0, 0, 0);

/// Two classes, and whether the first flows to the second.
type Flow = (Parts, Parts, bool);

/// Pairs of these, each way.
static FLOWS: [Flow; 6] = [
    (LOW, HIGH, true),
    (HIGH, LOW, false),
    (TRUSTED, PLAIN, true),
    (PLAIN, TRUSTED, false),
    (PLAIN, PLAIN, true),
    (LOW, PLAIN, false),
];

/// A class flows to another, or doesn't.
fn is_flow(rt: &impl Abort, row: &Flow) {
    let (from, to, wanted) = *row;
    assert!(rt;
        flows(&class(from), &class(to)) == wanted,
        "from {from:?} to {to:?}"
    );
}

#[test]
fn secrecy_rises_and_integrity_falls(rt: HostRuntime) {
    for row in &FLOWS {
        is_flow(&rt, row);
    }
}

#[test]
fn a_join_has_the_higher_secrecy_and_the_lower_integrity(rt: HostRuntime) {
    let joined = join(&class((1, 4, 3, 6)), &class((2, 16, 1, 2)));
    assert!(rt; joined == class((2, 20, 1, 2)));
}
