//! Numbers at random.

ghost use Rattle.std.specs.Prelude.{◌<◌};

/// A generator of numbers (Marsaglia's xorshift of 32 bits).
#[derive(Clone, Copy)]
pub struct Draw {
    x: u32,
}

/// The pages of data are those from this one on.
const FIRST_OF_DATA: u32 = 44;

const PAGES_OF_DATA: u32 = 8;

/// The far pages are four from this one on; their entries are where stacks of outer modes lie.
pub const FIRST_FAR: u32 = 92;

/// Whether data lie in it.
pub fn is_data(page: u32) -> bool {
    (FIRST_OF_DATA..FIRST_OF_DATA + PAGES_OF_DATA).contains(&page) || FIRST_FAR <= page
}

/// The tables' physical addresses: that of S, three of P0, and another of S.
pub static TABLES: [u32; 5] = [0x4000, 0x4200, 0x4600, 0x4800, 0x4A00];

impl Draw {
    /// One that begins with a number, which isn't 0.
    pub fn new(seed: u32) -> Draw {
        Draw { x: seed | 1 }
    }

    /// The next number.
    pub fn number(&mut self) -> u32 {
        let mut x = self.x;
        x ^= x << 13;
        x ^= x >> 17;
        x ^= x << 5;
        self.x = x;
        x
    }

    /// A number below another.
    pub fn below(&mut self, end: u32) -> u32
        requires { 0 < end }
        ensures { result < end }
    {
        self.number() % end
    }

    /// A byte.
    pub fn byte(&mut self) -> u8 {
        (self.number() % 0x100) as u8
    }

    /// Draws true with one chance in `count`.
    pub fn one_of(&mut self, count: u32) -> bool
        requires { 0 < count }
    {
        self.below(count) == 0
    }

    /// A page of data.
    pub fn data_page(&mut self) -> u32
        ensures { result < 52 }
    {
        FIRST_OF_DATA + self.below(PAGES_OF_DATA)
    }

    /// A physical address in the pages of data, at times at the end of one.
    pub fn data(&mut self) -> u32 {
        let page = self.data_page();
        let offset = if self.one_of(4) {
            506 + self.below(6)
        } else {
            self.below(512)
        };
        512 * page + offset
    }

    /// The physical address of a table.
    fn table(&mut self) -> u32 {
        TABLES[(self.below(5) % 5) as usize]
    }

    /// The address of a table in S, or the same in P0.
    pub fn table_address(&mut self) -> u32 {
        let space = if self.one_of(3) { 0 } else { 0x8000_0000 };
        self.table().wrapping_add(space)
    }

    /// Where S or P0 begins, and the address of a table of it, in S or in P0.
    pub fn space_and_table(&mut self) -> (u32, u32) {
        let table = self.table_address();
        if self.one_of(2) {
            (0x8000_0000, table / 0x8000 * 0x8000 + 0x4000)
        } else {
            (0, table)
        }
    }

    /// The physical address of an entry for a page, in some table.
    pub fn entry_place(&mut self, page: u32) -> u32 {
        self.table().wrapping_add(page.wrapping_mul(4))
    }

    /// A page of P0 in which data lie: by its number, or by one of four far numbers.
    pub fn touched_page(&mut self) -> u32
        ensures { result < 96 }
    {
        if self.one_of(4) {
            FIRST_FAR + self.below(4)
        } else {
            self.data_page()
        }
    }

    /// A page: mostly one in which data lie.
    pub fn page(&mut self) -> u32 {
        if self.one_of(12) {
            self.below(64)
        } else {
            self.touched_page()
        }
    }

    /// An address: mostly of data, in P0 or in S; an entry's; in P1; or any.
    pub fn address(&mut self) -> u32 {
        match self.below(16) {
            0 => self.number(),
            1 => 0x7FFF_F000 + self.below(0x1000),
            2 => {
                let page = self.page();
                0x8000_0000 + self.entry_place(page) % 0x8000
            }
            3 => 512 * FIRST_FAR + self.below(0x800) + 0x8000_0000 * self.below(2),
            4 | 5 | 6 => 0x8000_0000 + self.data() % 0x8000,
            _ => self.data(),
        }
    }

    /// A status longword of a mode, which is kernel more often than another; the mode before it is the same. For half of them
    /// an overflow traps.
    pub fn status(&mut self) -> u32 {
        let mode = self.mode() % 4;
        let level = if mode == 0 && self.one_of(6) {
            self.below(24)
        } else {
            0
        };
        0x0140_0000 * mode + 0x1_0000 * (level % 24) + 0x20 * self.below(2)
    }

    /// A mode, which is kernel more often than another.
    pub fn mode(&mut self) -> u32 {
        if self.one_of(3) { 0 } else { self.below(4) }
    }
}

/// The protection codes of drawn entries, with valid and modify set or not.
static KINDS: [u32; 16] = [
    0xA400_0000,
    0xA000_0000,
    0xA000_0000,
    0xA400_0000,
    0xA000_0000,
    0x2400_0000,
    0x9400_0000,
    0x9000_0000,
    0x9C00_0000,
    0xF400_0000,
    0xF000_0000,
    0xC400_0000,
    0xC000_0000,
    0xFC00_0000,
    0x8400_0000,
    0xAC00_0000,
];

/// An entry for a page: a page of data mostly has a frame of another, and each other page that of its number.
pub fn entry(draw: &mut Draw, page: u32) -> u32 {
    let kind = KINDS[(draw.below(16) % 16) as usize];
    let frame = if draw.one_of(60) {
        draw.below(66)
    } else if is_data(page) && !draw.one_of(4) {
        draw.data_page()
    } else {
        page % 64
    };
    kind.wrapping_add(frame)
}
