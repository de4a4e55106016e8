//! Fields of bytes, bounded texts, names, widths, and numbers as text.
#![tactic(auto)]

mod bytes;
mod cutting;
mod faults;
mod names;
mod numbers;
mod text;
mod width;

pub use bytes::{get_u16, get_u32, put_u16, put_u32};
pub use cutting::{find, first_line};
pub use faults::{Full, NoMemory};
pub use names::{file_name, object_name};
pub use numbers::{decimal, hex, read_decimal};
pub use text::{FileName, Name, Text};
pub use width::{Width, signed};
