//! Slices of any guests, in any order, have the same outcome. The file `any_slices.cases` of `test_vvmm_cases` has what both come
//! to, found by hand.

use crate::case::Case;
use crate::content::Content;
use crate::content::Piece::{Bytes, Longs};
use crate::devices::play;
use crate::outcome::Outcome;
use crate::running::PAGES;
use std::alloc::Global;
use vax_cpu::Cpu;
use vm_guest::Counts;

/// A script of all forms, with transfers: by slices of the three guests in each order, of one step, of seven, of whole quanta,
/// and of different sizes.
#[test]
fn slices_in_any_order(rt: HostRuntime) {
    let sizes = [[1, 1, 1], [7, 7, 7], [30, 30, 30], [30, 1, 7]];
    let counts = are_alike(rt.alloc(), &ALL, &sizes);
    assert!(rt; matches!(counts, Some(counts) if counts.plain == 190));
}

/// Three guests that count down a thousand steps, by slices in each order.
#[test]
fn three_guests_count_down(rt: HostRuntime) {
    let counts = are_alike(rt.alloc(), &COUNTING, &[[1, 7, 1000]]);
    assert!(rt; matches!(counts, Some(counts) if counts.trail == 0x0BB8_001B_F24C));
}

/// The counts of a case, if by slices of all these sizes, and in each order, it has the same outcome as by its own slices.
fn are_alike(alloc: Global, case: &Case, sizes: &[[u32; 3]]) -> Option<Counts> {
    let mut machine = Cpu::new(alloc, PAGES).ok()?;
    let whole = play(alloc, &mut machine, case, &[])?;
    for sizes in sizes {
        let [x, y, z] = *sizes;
        for [a, b, c] in ORDERS {
            let order = [(a, x), (b, y), (c, z)];
            if !is_same(alloc, &mut machine, case, &whole, &order)? {
                return None;
            }
        }
    }
    Some(whole.ending.counts)
}

/// Whether a case in an order has all counts and bytes of another run of it.
fn is_same(
    alloc: Global,
    machine: &mut Cpu,
    case: &Case,
    whole: &Outcome,
    order: &[(u8, u32)],
) -> Option<bool> {
    let outcome = play(alloc, machine, case, order)?;
    Some(outcome.is_same(whole))
}

const ORDERS: [[u8; 3]; 6] = [
    [0, 1, 2],
    [0, 2, 1],
    [1, 0, 2],
    [1, 2, 0],
    [2, 0, 1],
    [2, 1, 0],
];

/// Three guests without consoles.
const COUNTERS: &str = "version = 2\nslice = 10
[[guest]]\nname = \"A\"\nclass = \"0{};0{}\"\npages = 64\nimage = \"a\"\nload = 0\nstart = 512\nautostart = true
dump = 0\nquantum = 1000
[[guest]]\nname = \"B\"\nclass = \"0{};0{}\"\npages = 64\nimage = \"b\"\nload = 0\nstart = 512\nautostart = true
dump = 1\nquantum = 1000
[[guest]]\nname = \"C\"\nclass = \"0{};0{}\"\npages = 64\nimage = \"c\"\nload = 0\nstart = 512\nautostart = true
dump = 2\nquantum = 1000\n";

/// L: DECL R0; BRB L
const DOWN: Content = &[(0x200, Bytes(&[0xD7, 0x50, 0x11, 0xFC]))];

/// Each goes 500 times through its loop, so that R0 is -500 at the end.
const COUNTING: Case = Case {
    config: COUNTERS,
    images: &[DOWN, DOWN, DOWN],
    drives: &[],
    script: "",
    rounds: 1,
};

/// A guest of the lowest class, and two of class 1 that share a volume, with terminals, a printer, an audit and dumps.
const SYSTEM: &str = "version = 2\nslice = 10
[audit]\nline = 9\nclass = \"15{};0{}\"
[[terminal]]\nname = \"T0\"\nline = 0\nclass = \"0{};0{}\"
[[terminal]]\nname = \"T1\"\nline = 1\nclass = \"1{};0{}\"
[[terminal]]\nname = \"T2\"\nline = 2\nclass = \"1{};0{}\"
[[volume]]\nname = \"V\"\ndrive = 0\nblocks = 1\nclass = \"0{};0{}\"
[[volume]]\nname = \"W\"\ndrive = 1\nblocks = 2\nclass = \"1{};0{}\"
[[printer]]\nname = \"P\"\nline = 3\nclass = \"1{};0{}\"
[[guest]]\nname = \"A\"\nclass = \"0{};0{}\"\npages = 64\nimage = \"a\"\nload = 0\nstart = 512\nautostart = true
console = \"T0\"\ndump = 10\nquantum = 30
[[guest]]\nname = \"B\"\nclass = \"1{};0{}\"\npages = 64\nimage = \"b\"\nload = 0\nstart = 512\nautostart = true
console = \"T1\"\nprinter = \"P\"\ndump = 11\nquantum = 20\nmount = [{unit = 0, volume = \"W\", write = true}]
[[guest]]\nname = \"C\"\nclass = \"1{};0{}\"\npages = 64\nimage = \"c\"\nload = 0\nstart = 512\nautostart = false
dump = 12\nquantum = 14\nmount = [{unit = 1, volume = \"W\", write = true}]\n";

/// P: MFPR #RXDB, R0; BEQL P; MTPR R0, #TXDB; BRB P
const ECHO: Content = &[(
    0x200,
    Bytes(&[0xDB, 0x21, 0x50, 0x13, 0xFB, 0xDA, 0x50, 0x23, 0x11, 0xF6]),
)];

/// L: INCB @#1000; MTPR #280, #KCALL; MTPR #2A0, #KCALL; MTPR #62, #TXDB; BRB L. The packets write the block from 1000 and print
/// five bytes from there.
const WRITER: Content = &[
    (
        0x200,
        Bytes(&[
            0x96, 0x9F, 0x00, 0x10, 0x00, 0x00, // 200
            0xDA, 0x8F, 0x80, 0x02, 0x00, 0x00, 0x8F, 0xC8, 0x00, 0x00, 0x00, // 206
            0xDA, 0x8F, 0xA0, 0x02, 0x00, 0x00, 0x8F, 0xC8, 0x00, 0x00, 0x00, // 211
            0xDA, 0x8F, 0x62, 0x00, 0x00, 0x00, 0x23, // 21C
            0x11, 0xDB, // 223, to 200
        ]),
    ),
    (0x280, Longs(&[2, 0, 0, 0x1000, 0, 0])),
    (0x2A0, Longs(&[3, 0, 0, 0x1000, 5, 0])),
    (0x1000, Bytes(b"0 job")),
];

/// MTPR #280, #KCALL; MTPR #2A0, #KCALL; MTPR #2C0, #KCALL; MTPR #63, #TXDB; L: BRB L. The packets read block 0 of unit 1 to 1000
/// and of unit 2 to 1200, and write block 1 of unit 1 from 1000.
const COPIER: Content = &[
    (
        0x200,
        Bytes(&[
            0xDA, 0x8F, 0x80, 0x02, 0x00, 0x00, 0x8F, 0xC8, 0x00, 0x00, 0x00, // 200
            0xDA, 0x8F, 0xA0, 0x02, 0x00, 0x00, 0x8F, 0xC8, 0x00, 0x00, 0x00, // 20B
            0xDA, 0x8F, 0xC0, 0x02, 0x00, 0x00, 0x8F, 0xC8, 0x00, 0x00, 0x00, // 216
            0xDA, 0x8F, 0x63, 0x00, 0x00, 0x00, 0x23, // 221
            0x11, 0xFE, // 228
        ]),
    ),
    (0x280, Longs(&[1, 1, 0, 0x1000, 0, 0])),
    (0x2A0, Longs(&[1, 2, 0, 0x1200, 0, 0])),
    (0x2C0, Longs(&[2, 1, 1, 0x1000, 0, 0])),
];

/// Six rounds. The first guest looks for typed bytes in every step: 90 plain steps and 90 sensitive ones. The second goes round
/// four times in each round, and each time counts its byte, writes, prints and shows a letter: 48 plain and 72 sensitive steps.
/// The third runs from the second round to the fifth: four sensitive steps, 52 plain ones, and 28 in which it has stopped.
const ALL: Case = Case {
    config: SYSTEM,
    images: &[ECHO, WRITER, COPIER],
    drives: &[
        (0, &[&[(0, Bytes(b"low"))]]),
        (1, &[&[(0, Bytes(b"old"))], &[(0, Bytes(b"older"))]]),
    ],
    script: "# all forms
1 T0 > HI
1 T1 break
1 T1 > SHOW

2 T2 > MOUNT C 2 V READ
2 T2 > START C
2 T2 > CONNECT C\r
3 T1 > CONNECT B
3 T0 > A
4 T1 break
4 T2 break
4 T2 > CONNECT B
4 T1 > CONNECT B
4 T2 > DISMOUNT C 1
4 T2 > MOUNT C 1 W WRITE
5 T2 > HALT B
5 T2 > START B
5 T2 > MOUNT B 3 V WRITE
5 T2 > HALT A
5 T0 > ZZ
6 T2 > HALT C
6 T0 break
6 T0 > HALT C
6 T9 > SHOW
6 T1 > X
6 T0 > START A
7 T0 > SHOW",
    rounds: 6,
};
