//! Reads scripts, and lines that are typed meanwhile: events with their rounds and terminals.
#![tactic(auto)]

mod event;
mod line;
mod script;
mod text;
mod typed;

pub use event::{Event, ScriptError, ScriptFault, ScriptKind, Typed, TypedError};
pub use line::{LAST_ROUND, MOST_TYPED, cut, read_typed};
pub use script::{is_passed_over, read_script, script_law};
pub use text::LineText;
pub use typed::{kind_text, typed_law, typed_line_law};
