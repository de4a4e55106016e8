/// A device, by its number.
#[derive(Clone, Copy, Debug, PartialEq, Eq)]
pub enum Device {
    Line(u8),
    Drive(u8),
}
