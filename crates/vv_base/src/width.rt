ghost use Rattle.std.specs.Prelude.{◌≡◌, ◌≢◌, ◌≤◌};
ghost use Rattle.vv_base.specs.Width.{signed_of, size_of};

/// The width of an integer operand: 1, 2, 4 or 8 bytes.
#[derive(Clone, Copy, Debug, Default, PartialEq, Eq)]
pub enum Width {
    #[default]
    Byte,
    Word,
    Long,
    Quad,
}

impl Width {
    /// How many bytes the width has: 1, 2, 4 or 8.
    pub fn bytes(self) -> u8
        ensures value { result ≡ size_of self }
        ensures some { 1 ≤ result }
        ensures most { result ≤ 8 }
    {
        match self {
            Width::Byte => 1,
            Width::Word => 2,
            Width::Long => 4,
            Width::Quad => 8,
        }
    }
}

/// The two's complement value of the low bits of a number: its low 8, 16 or 32 bits.
pub fn signed(v: u32, w: Width) -> i32
    requires { w ≢ Width.Quad }
    ensures { result ≡ signed_of w v }
{
    match w {
        Width::Byte => i32::from(((v % 0x100) as u8).cast_signed()),
        Width::Word => i32::from(((v % 0x1_0000) as u16).cast_signed()),
        Width::Long | Width::Quad => v.cast_signed(),
    }
}
