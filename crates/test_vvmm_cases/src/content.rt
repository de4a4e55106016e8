//! Bytes as the lines of content say them.

use crate::play::Verdict;
use std::alloc::Global;
use std::fs;
use vv_base::NoMemory;

/// How many bytes one line puts at most.
const MOST: u32 = 0x0200_0000;

/// Bytes, and the place where the next ones are put.
#[derive(Drop)]
pub struct Content {
    pub bytes: Vec<u8>,
    place: usize,
}

/// A line of content: its mark, and what follows the blank.
#[derive(Clone, Copy)]
pub struct Marked<'t> {
    pub mark: char,
    pub text: &'t str,
}

const MARKS: [(&str, char); 12] = [
    ("|", '|'),
    ("/", '/'),
    ("=", '='),
    ("#", '#'),
    ("$", '$'),
    ("^", '^'),
    ("%", '%'),
    ("@", '@'),
    ("+", '+'),
    ("&", '&'),
    ("<", '<'),
    (">", '>'),
];

/// The line as content, if it begins with a mark.
pub fn mark_in(line: &str) -> Option<Marked<'_>> {
    for (front, mark) in MARKS {
        if let Some(rest) = line.strip_prefix(front) {
            let text = rest.strip_prefix(" ").unwrap_or(rest);
            return Some(Marked { mark, text });
        }
    }
    None
}

/// A number in hex.
fn hex(text: &str) -> Option<u32> {
    u32::from_str_radix(text, 16).ok()
}

/// Two numbers in hex.
fn two(text: &str) -> Option<(u32, u32)> {
    let (first, second) = text.split_once(' ')?;
    Some((hex(first)?, hex(second)?))
}

impl Content {
    /// No bytes.
    pub fn new(alloc: Global) -> Content {
        Content {
            bytes: Vec::new(alloc),
            place: 0,
        }
    }

    /// Puts a byte: over what is there, or after all.
    fn put_byte(&mut self, byte: u8) -> Result<(), NoMemory> {
        if self.place < self.bytes.len() {
            self.bytes[self.place] = byte;
        } else {
            self.bytes.push(byte)?;
        }
        self.place = self.place.saturating_add(1);
        Ok(())
    }

    /// Puts bytes.
    pub fn put(&mut self, bytes: &[u8]) -> Result<(), NoMemory> {
        for byte in bytes {
            self.put_byte(*byte)?;
        }
        Ok(())
    }

    /// Goes on at a place; what lies between is zero.
    fn go_to(&mut self, place: usize) -> Result<(), NoMemory> {
        if place > self.bytes.len() {
            self.bytes.resize(place, 0)?;
        }
        self.place = place;
        Ok(())
    }

    /// Puts bytes in hex.
    fn put_hex(&mut self, text: &str) -> Result<Verdict, NoMemory> {
        for word in text.split(' ') {
            match u8::from_str_radix(word, 16) {
                Ok(byte) => self.put_byte(byte)?,
                Err(_) => {
                    return Ok(Verdict::Unread);
                }
            }
        }
        Ok(Verdict::Holds)
    }

    /// Puts longwords in hex.
    fn put_longs(&mut self, text: &str) -> Result<Verdict, NoMemory> {
        for word in text.split(' ') {
            match hex(word) {
                Some(long) => self.put(&long.to_le_bytes())?,
                None => {
                    return Ok(Verdict::Unread);
                }
            }
        }
        Ok(Verdict::Holds)
    }

    /// Puts `count` longwords, each greater than the one before by 1.
    fn put_rising(&mut self, count: u32, first: u32) -> Result<(), NoMemory> {
        for more in 0..count.min(MOST) {
            self.put(&first.wrapping_add(more).to_le_bytes())?;
        }
        Ok(())
    }

    /// Puts a byte `count` times.
    fn put_times(&mut self, count: u32, byte: u8) -> Result<(), NoMemory> {
        for _time in 0..count.min(MOST) {
            self.put_byte(byte)?;
        }
        Ok(())
    }

    /// Puts what a mark with a number asks for.
    fn put_counted(&mut self, mark: char, text: &str) -> Result<Verdict, NoMemory> {
        match (mark, two(text)) {
            ('^', Some((count, first))) => self.put_rising(count, first)?,
            ('%', Some((count, byte))) => self.put_times(count, byte.to_le_bytes()[0])?,
            _ => {
                return Ok(Verdict::Unread);
            }
        }
        Ok(Verdict::Holds)
    }

    /// Puts the bytes of a file.
    fn put_file(&mut self, rt: &HostRuntime, name: &str) -> Result<Verdict, NoMemory> {
        match fs::read(rt, name) {
            Ok(bytes) => self.put(&bytes)?,
            Err(_) => {
                return Ok(Verdict::Unread);
            }
        }
        Ok(Verdict::Holds)
    }

    /// Puts a text and what ends it.
    fn put_text(&mut self, text: &str, end: &str) -> Result<Verdict, NoMemory> {
        self.put(text.as_bytes())?;
        self.put(end.as_bytes())?;
        Ok(Verdict::Holds)
    }

    /// Puts what a line of content says that names no other bytes.
    pub fn put_marked(&mut self, rt: &HostRuntime, line: Marked) -> Result<Verdict, NoMemory> {
        match line.mark {
            '|' => self.put_text(line.text, "\n"),
            '/' => self.put_text(line.text, "\r\n"),
            '=' => self.put_text(line.text, ""),
            '#' => self.put_hex(line.text),
            '$' => self.put_longs(line.text),
            '<' => self.put_file(rt, line.text),
            '@' => match hex(line.text) {
                Some(place) if place <= MOST => {
                    self.go_to(place as usize)?;
                    Ok(Verdict::Holds)
                }
                _ => Ok(Verdict::Unread),
            },
            mark => self.put_counted(mark, line.text),
        }
    }
}
