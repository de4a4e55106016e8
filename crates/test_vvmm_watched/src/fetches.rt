//! Which files each command fetches, and how often, and in how many puts it is answered: no clause counts calls.
use super::noting::{FETCH, OUT, PAGES, noted};
use super::order::FILES;
use std::alloc::Global;
use vax_cpu::Cpu;

/// Words, with a blank between two, the first letters of what they fetch, in order, and how often the sink is put to.
const CALLS: [(&str, &str, usize); 14] = [
    ("check c", "c", 1),
    ("migrate c", "c", 1),
    ("flow c", "c", 1),
    ("draw c", "c", 1),
    ("asm s", "s", 0),
    ("asm t", "t", 1),
    ("dis x", "x", 1),
    ("solo x 5", "x", 1),
    ("run c s 1", "csx", 1),
    ("live c 1", "cx", 1),
    ("run c m 1", "cm", 0),
    ("run c s 0", "", 0),
    ("chek c", "", 0),
    ("load c", "", 0),
];

/// Whether these words fetch files of these first letters, and put to the sink so often.
fn fetches(alloc: Global, words: &str, letters: &str, puts: usize) -> Option<bool> {
    let mut machine = Cpu::new(alloc, PAGES).ok()?;
    let (_, notes) = noted(alloc, &mut machine, words, &FILES, &[])?;
    let mut fetched = Vec::new(alloc);
    for note in &notes {
        if *note >= FETCH + b'a' {
            fetched.push(*note - FETCH).ok()?;
        }
    }
    let told = notes.iter().filter(|note| **note == OUT).count();
    Some(fetched.as_slice() == letters.as_bytes() && told == puts)
}

#[test]
fn each_file_is_fetched_once_and_told_in_one_put(rt: HostRuntime) {
    for (words, letters, puts) in CALLS {
        assert!(rt;
            fetches(rt.alloc(), words, letters, puts) == Some(true),
            "{words}"
        );
    }
}
