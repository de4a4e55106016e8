//! Many texts that are made of one file, a call with each of them, and the table of their answers.

use crate::checks::answers;
use crate::given::{Given, Variant};
use crate::play::Verdict;
use std::alloc::Global;
use vax_cpu::Cpu;
use vv_base::NoMemory;

/// How the text of a number is made of a file.
#[derive(Clone, Copy)]
enum Making {
    /// Its first bytes, as many as the number says.
    Front,
    /// All of it, with this byte at that place.
    Change(u8),
}

/// Texts of a file, and the words of the call that is made with each.
#[derive(Clone, Copy)]
pub struct Each<'t> {
    making: Making,
    file: &'t str,
    words: &'t str,
}

/// A row of the table: the texts from one number on, below another, and the answer to each; empty where they aren't tried.
#[derive(Clone, Copy)]
struct Row<'t> {
    first: usize,
    end: usize,
    answer: &'t str,
}

/// What `prefixes FILE WORDS` or `changes FILE BYTE WORDS` asks for.
pub fn each_in<'t>(word: &str, rest: &'t str) -> Option<Each<'t>> {
    let (file, rest) = rest.split_once(' ')?;
    if word == "prefixes" {
        return Some(Each {
            making: Making::Front,
            file,
            words: rest,
        });
    }
    let (byte, words) = rest.split_once(' ')?;
    let byte = u8::from_str_radix(byte, 16).ok()?;
    Some(Each {
        making: Making::Change(byte),
        file,
        words,
    })
}

/// A row: `FIRST-LAST ANSWER`, or one number for both.
fn row_in(line: &str) -> Option<Row<'_>> {
    let (numbers, answer) = line.split_once(' ').unwrap_or((line, ""));
    let (first, last) = numbers.split_once('-').unwrap_or((numbers, numbers));
    Some(Row {
        first: first.parse().ok()?,
        end: last.parse::<usize>().ok()?.saturating_add(1),
        answer,
    })
}

impl Each<'_> {
    /// How many texts are made of a file of a length.
    fn count(self, length: usize) -> usize {
        match self.making {
            Making::Front => length.saturating_add(1),
            Making::Change(_) => length,
        }
    }

    /// The text of a number; beyond the last one it is the file.
    fn text(self, alloc: Global, whole: &[u8], number: usize) -> Result<Vec<u8>, NoMemory> {
        let front = match self.making {
            Making::Front => whole.get(..number).unwrap_or(whole),
            Making::Change(_) => whole,
        };
        let mut text = front.to_vec(alloc)?;
        if let Making::Change(byte) = self.making {
            if let Some(place) = text.get_mut(number) {
                *place = byte;
            }
        }
        Ok(text)
    }

    /// Makes the call with each text of a row, up to one that has another answer.
    fn try_row(
        self,
        alloc: Global,
        machine: &mut Cpu,
        given: &Given,
        whole: &[u8],
        row: Row,
    ) -> Result<Verdict, NoMemory> {
        for number in row.first..row.end {
            let text = self.text(alloc, whole, number)?;
            let variant = Variant {
                file: self.file,
                bytes: &text,
            };
            let told = given.call(alloc, machine, self.words, Some(variant))?;
            if !answers(&told, row.answer) {
                return Ok(Verdict::DiffersAt(number));
            }
        }
        Ok(Verdict::Holds)
    }

    /// Goes through a table, whose rows must leave out no text, up to a row that doesn't hold or can't be read.
    pub fn try_all(
        self,
        alloc: Global,
        machine: &mut Cpu,
        given: &Given,
        table: &str,
    ) -> Result<Verdict, NoMemory> {
        let Some(whole) = given.file(self.file) else {
            return Ok(Verdict::Unread);
        };
        let count = self.count(whole.len());
        let mut next = 0;
        for line in table.lines() {
            let Some(row) = row_in(line) else {
                return Ok(Verdict::Unread);
            };
            if row.first != next || row.end <= next || row.end > count {
                return Ok(Verdict::UnreadAt(next));
            }
            if !row.answer.is_empty() {
                let verdict = self.try_row(alloc, machine, given, whole, row)?;
                if verdict != Verdict::Holds {
                    return Ok(verdict);
                }
            }
            next = row.end;
        }
        if next == count {
            Ok(Verdict::Holds)
        } else {
            Ok(Verdict::UnreadAt(next))
        }
    }
}
