ghost use Rattle.std.specs.Prelude.{◌≡◌, ◌≢◌, ◌+◌, ◌-◌, ◌<◌, ◌≤◌, ◌++◌, length, IfOk, IfErr, OnErr, Ok, decimal, List, ℕ};
ghost use Rattle.vv_class.specs.Class.{IsClass};
ghost use Rattle.vv_base.specs.Bits.{is_set};
ghost use Rattle.std.specs.Result.{result_ok};
ghost use Rattle.vv_class.specs.Text.{class_in, class_text, half_text, listed, categories_below, IsLongestStart};
ghost use Rattle.vv_class.specs.Scan.{class_of, at_the_end, part_of, start_of};
ghost use Rattle.vv_class.specs.declared.class.AccessClass.{AccessClass};

use crate::AccessClass;
use crate::scan::{Half, start};
use vv_base::{Text, decimal};

/// The bytes are the text of no class, and the longest start of them that begins a class text has this many bytes.
#[derive(Clone, Copy, Debug, PartialEq, Eq)]
pub struct ClassFault {
    pub place: u32,
}

/// The class of a text like `2{1,5};0{}`: secrecy and then integrity, levels 0 to 255, categories 0 to 63 rising, and
/// no leading zeros. `ClassFault` exactly where the bytes are the text of no class.
pub fn read_class(b: &[u8]) -> Result<AccessClass, ClassFault>
    ensures ok { IfOk result (λ c. IsClass c × (b.now ≡ class_text c)) }
    ensures each { (c : AccessClass) → IsClass c → b.now ≡ class_text c → result ≡ Ok c }
    ensures refused { OnErr result ((c : AccessClass) → IsClass c → b.now ≢ class_text c) }
    ensures fault { IfErr result (λ fault. IsLongestStart b.now fault.place) }

    // The answer as a function that computes, and the class alone by the numbers of its text.
    ensures value { result ≡ class_of b.now }
    ensures class { class_in b.now ≡ result_ok result }
{
    scan_text(b)
}

#[tactic(auto, unfolding(crate::specs::Scan::class_of))]
fn scan_text(b: &[u8]) -> Result<AccessClass, ClassFault>
    ensures { result ≡ class_of b.now }
{
    let (secrecy, rest) = read_half(b);
    match rest {
        [b';', second @ ..] if secrecy.is_whole() => scan_second(b, &secrecy, second),
        _ => Err(fault_before(b, rest)),
    }
}

/// The class, from its first half and the bytes after the semicolon.
fn scan_second(b: &[u8], secrecy: &Half, second: &[u8]) -> Result<AccessClass, ClassFault>
    requires within { length second.now ≤ length b.now }
    requires short { length b.now ≤ length second.now + 198 }
    ensures { result ≡ at_the_end b.now secrecy.now (part_of start_of second.now).half (part_of start_of second.now).rest }
{
    let (integrity, rest) = read_half(second);
    if rest.is_empty() && integrity.is_whole() {
        return Ok(AccessClass {
            secrecy: secrecy.level,
            secrecy_cats: secrecy.cats,
            integrity: integrity.level,
            integrity_cats: integrity.cats,
        });
    }
    Err(fault_before(b, rest))
}

/// The fault after all but the last bytes.
fn fault_before(b: &[u8], rest: &[u8]) -> ClassFault
    requires within { length rest.now ≤ length b.now }
    requires short { length b.now ≤ length rest.now + 395 }
    ensures { result.place ≡ length b.now - length rest.now }
{
    ClassFault {
        place: (b.len() - rest.len()) as u32,
    }
}

/// A half as far as the bytes go on with it, and those that do not.
#[tactic(auto, using(crate::proofs::Places::part_short))]
fn read_half(b: &[u8]) -> (Half, &[u8])
    ensures half { result.0 ≡ (part_of start_of b.now).half }
    ensures rest { result.1.now ≡ (part_of start_of b.now).rest }
    ensures within { length result.1.now ≤ length b.now }
    ensures short { length b.now ≤ length (part_of start_of b.now).rest + 197 }
{
    let mut half = start();
    for (place, byte) in b.iter().enumerate() {
        match half.step(*byte) {
            Some(next) => half = next,
            None => return (half, &b[place..]),
        }
    }
    (half, &[])
}

/// The one text of a class. The longest, with all categories on both sides, has 373 bytes.
#[tactic(auto, unfolding(crate::specs::Text::class_text))]
pub fn write_class(c: &AccessClass) -> Text<400>
    ensures { result ≡ class_text c.now }
{
    let mut text = Text::new();
    write_half(&mut text, c.secrecy, c.secrecy_cats);
    text.append(b";");
    write_half(&mut text, c.integrity, c.integrity_cats);
    text
}

/// A level with its set takes at most 197 bytes: three digits, two braces, and three bytes for each category.
#[tactic(auto, using(crate::proofs::Sets::lengths))]
fn write_half(text: &mut Text<400>, level: u8, cats: u64)
    requires { length text.old + 197 ≤ 400 }
    ensures written { text.new ≡ text.old ++ half_text level cats }
    ensures short { length text.new ≤ length text.old + 197 }
{
    add_number(text, level);
    text.append(b"{");
    write_set(text, cats);
    text.append(b"}");
}

#[tactic(auto, using(crate::proofs::Sets::lengths))]
fn write_set(text: &mut Text<400>, cats: u64)
    requires { length text.old + 192 ≤ 400 }
    ensures written { text.new ≡ text.old ++ listed (categories_below 64 cats) }
    ensures short { length text.new ≤ length text.old + 192 }
{
    let mut comma: &[u8] = b"";
    for category in 0..64 {
        if !has_category(cats, category) {
            continue;
        }
        text.append(comma);
        add_number(text, category);
        comma = b",";
    }
}

fn has_category(cats: u64, category: u8) -> bool
    requires { category < 64 }
    ensures { result ≡ is_set cats category }
{
    (cats >> u32::from(category)) % 2 == 1
}

fn add_number(text: &mut Text<400>, n: u8)
    requires { length text.old + length (decimal n) ≤ 400 }
    ensures written { text.new ≡ text.old ++ decimal n }
    ensures len { length text.new ≡ length text.old + length (decimal n) }
{
    text.append(decimal(u64::from(n)).bytes());
}

/// Each class has one text, each text is of one class, `class_of` reads exactly these, `class_in` gives what it reads, and
/// none has over 395 bytes.
pub fn text_laws()
    ensures one_class { (c d : AccessClass) → IsClass c → IsClass d → class_text c ≡ class_text d → c ≡ d }
    ensures read { (c : AccessClass) → IsClass c → class_of (class_text c) ≡ Ok c }
    ensures written { (b : List ℕ) → IfOk (class_of b) (λ c. IsClass c × (b ≡ class_text c)) }
    ensures place { (b : List ℕ) → IfErr (class_of b) (λ fault. IsLongestStart b fault.place) }
    ensures short { (c : AccessClass) → IsClass c → length (class_text c) ≤ 395 }
    ensures class { (b : List ℕ) → class_in b ≡ result_ok (class_of b) }
{}
