ghost use Rattle.std.specs.Prelude.{◌≡◌, ◌<◌, ◌++◌, [], ◌∷◌, slice_set};
ghost use Rattle.arrayvec.specs.ArrayVec.{array_vec_len};
ghost use Rattle.vax_table.specs.Effects.{begun, effect, put, put_in_register, store, went_to, went_if};

use crate::act::Dest;
use crate::evaluation::Operands;
use arrayvec::ArrayVec;
use vv_base::Width;

/// A store of an instruction: the number that goes to the width's bytes from an address, the lowest first.
#[derive(Clone, Copy, Debug, Default, PartialEq, Eq)]
pub struct Store {
    pub va: u32,
    pub width: Width,
    pub value: u64,
}

/// The outcome of a plain instruction.
#[derive(Drop)]
pub struct Plan {
    /// R0 to R15 after the instruction.
    pub r: [u32; 16],
    /// The processor status word after it.
    pub psw: u8,
    /// Its stores, in order.
    pub writes: ArrayVec<Store, 20>,
    /// The type of its arithmetic trap: 1 for integer overflow, 2 for a zero divisor.
    pub trap: Option<u8>,
}

/// Sets a register, if there is one of this number.
fn set(r: &mut [u32; 16], n: usize, v: u32)
    ensures { r.new ≡ slice_set r.old n v }
{
    if n < 16 {
        r[n] = v;
    }
}

/// The low bits of a result in a register: a byte or a word keeps the upper bits; a quadword goes to Rn and Rn+1.
fn put_in_register(r: &mut [u32; 16], n: u8, w: Width, v: u64)
    ensures { r.new ≡ put_in_register w n v r.old }
{
    let n = usize::from(n);
    let low = (v % 0x1_0000_0000) as u32;
    let old = r.get(n).copied().unwrap_or(0);
    match w {
        Width::Byte => set(r, n, old / 0x100 * 0x100 + low % 0x100),
        Width::Word => set(r, n, old / 0x1_0000 * 0x1_0000 + low % 0x1_0000),
        Width::Long => set(r, n, low),
        Width::Quad => {
            set(r, n, low);
            set(r, n + 1, (v / 0x1_0000_0000) as u32);
        }
    }
}

impl Plan {
    /// Nothing is done yet but the operands' side effects.
    pub fn begun(o: &Operands, psw: u8) -> Plan
        ensures { effect result ≡ begun o.now psw }
    {
        let r = o.r;
        Plan {
            r,
            psw,
            writes: ArrayVec::new(),
            trap: None,
        }
    }

    /// It goes on at an address.
    pub fn go_to(&mut self, pc: u32)
        ensures { effect self.new ≡ went_to pc (effect self.old) }
    {
        self.r[15] = pc;
    }

    /// It goes on at an address where a branch is taken.
    pub fn go_if(&mut self, taken: bool, pc: u32)
        ensures { effect self.new ≡ went_if taken pc (effect self.old) }
    {
        if taken {
            self.go_to(pc);
        }
    }

    /// A store after those that are there.
    pub fn store(&mut self, va: u32, width: Width, value: u64)
        requires room { array_vec_len self.old.writes < 20 }
        ensures { effect self.new ≡ record (effect self.old) { writes = (effect self.old).writes ++ store va width value ∷ [] } }
    {
        self.writes.push(Store { va, width, value });
    }

    /// A result of a width at its destination; in a register a byte or a word keeps the upper bits.
    pub fn put(&mut self, dest: Dest, w: Width, v: u64)
        requires room { array_vec_len self.old.writes < 20 }
        ensures { effect self.new ≡ put dest w v (effect self.old) }
    {
        match dest {
            Dest::Nowhere => {}
            Dest::Register(n) => put_in_register(&mut self.r, n, w, v),
            Dest::Memory(va) => self.store(va, w, v),
        }
    }
}
