ghost use Rattle.vm_guest.specs.Kept.{IsShadowedIn};

use crate::{Place, REGISTERS, Stage};
use std::alloc::Global;
use vv_base::NoMemory;

/// What a guest has at a moment: its registers in the order of `REGISTERS`, the typed bytes that wait, and its memory.
#[derive(Drop)]
pub struct Snapshot {
    registers: [u32; 57],
    typed: Vec<u8>,
    memory: Vec<u8>,
}

/// The place of a register among them all.
fn rank(place: Place) -> Option<usize> {
    REGISTERS.iter().position(|register| register.1 == place)
}

impl Snapshot {
    /// What a guest on a stage has.
    pub fn of(alloc: Global, stage: &Stage) -> Result<Snapshot, NoMemory>
        requires { IsShadowedIn stage.now.machine.memory stage.now.guest }
    {
        let mut registers = [0; 57];
        for (k, (_, place)) in REGISTERS.iter().enumerate() {
            registers[k] = place.of(stage.state());
        }
        let typed = stage.state().console.parts();
        let mut memory = vec![in alloc; 0; 0x8000]?;
        let _ = stage.fetch(0, &mut memory);
        Ok(Snapshot {
            registers,
            typed: typed.waiting.bytes().to_vec(alloc)?,
            memory,
        })
    }

    /// What it has at a place; 0 beyond its memory.
    pub fn at(&self, place: Place) -> u32 {
        if let Place::Long(pa) = place {
            let mut bytes = [0; 4];
            for (k, byte) in bytes.iter_mut().enumerate() {
                *byte = self.memory.get(pa as usize + k).copied().unwrap_or(0);
            }
            return u32::from_le_bytes(bytes);
        }
        match rank(place) {
            Some(k) if k < 57 => self.registers[k],
            _ => 0,
        }
    }

    /// The last `count` typed bytes wait, where more do.
    fn keep_typed(&mut self, count: u32) {
        for _taken in count as usize..self.typed.len() {
            if !self.typed.is_empty() {
                let _ = self.typed.remove(0);
            }
        }
    }

    /// It has another value at a place; what lies beyond memory is left. Of the typed bytes that many wait still.
    pub fn put(&mut self, place: Place, v: u32) {
        if place == Place::Typed {
            self.keep_typed(v);
        }
        if let Place::Long(pa) = place {
            for (k, byte) in v.to_le_bytes().iter().enumerate() {
                let at = pa as usize + k;
                if at < self.memory.len() {
                    self.memory[at] = *byte;
                }
            }
        }
        match rank(place) {
            Some(k) if k < 57 => self.registers[k] = v,
            _ => {}
        }
    }

    /// Other values at places.
    pub fn put_all(&mut self, values: &[(Place, u32)]) {
        for (place, v) in values {
            self.put(*place, *v);
        }
    }

    /// The first byte of memory that isn't the same.
    fn other_byte(&self, other: &Snapshot) -> Option<usize> {
        self.memory
            .iter()
            .zip(other.memory.iter())
            .position(|(a, b)| *a != *b)
    }

    /// The first place that differs from that of another. The typed bytes that wait count as one register.
    pub fn difference(&self, other: &Snapshot) -> Option<Place> {
        for (k, (_, place)) in REGISTERS.iter().enumerate() {
            if k < 57 && self.registers[k] != other.registers[k] {
                return Some(*place);
            }
        }
        if self.typed != other.typed {
            return Some(Place::Typed);
        }
        let at = self.other_byte(other)?;
        Some(Place::Long((at % 0x8000) as u32))
    }
}
