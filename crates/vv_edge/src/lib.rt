//! The program's files and standard streams, and what is decided about them and about its end. The objects over files are
//! trusted: contracts say nothing of their content, and each counts its faults. Functions of values decide what an open that
//! fails means, which files may be devices, which texts words alone ask for, how the program ends, and what it shows people at a
//! terminal.
#![tactic(auto)]

mod asked;
mod broken;
mod columns;
mod device_file;
mod ending;
mod faults;
mod file_drive;
mod file_line;
mod file_shelf;
mod found;
mod hints;
mod input_keys;
mod learning;
mod opening;
mod out_sink;
mod standard;
mod stat;
mod telling;
mod ticker;
mod typed;

pub use asked::{text_asked, words_status};
pub use broken::broken_key;
pub use ending::conclude;
pub use file_drive::FileDrive;
pub use file_line::FileLine;
pub use file_shelf::FileShelf;
pub use found::look;
pub use hints::Told;
pub use input_keys::InputKeys;
pub use learning::{audit_line, refused_column, refused_line, told_word, wanted_drive};
pub use opening::{Opening, Streams, line_notes};
pub use out_sink::OutSink;
pub use standard::hold_standard;
pub use stat::{Flaw, Found, Identity, Kind, Look, drive_under, whole_blocks};
pub use telling::{DriveNotes, LineNotes, Note, Stored};
pub use ticker::Ticker;
