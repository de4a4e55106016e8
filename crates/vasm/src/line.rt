ghost use Rattle.vasm_text.specs.Cutting.{before_mark};
ghost use Rattle.std.specs.Prelude.{◌≡◌, ◌<◌, ◌∷◌, length, option_map};
ghost use Rattle.std.specs.Option.{option_copied};
ghost use Rattle.std.specs.Str.Lines.{lines, strip_carriage_return};
ghost use Rattle.vasm_text.specs.Statements.{after_label, content_in, saying, source_line_in, unlabelled};
ghost use Rattle.vasm.specs.Views.{source_line_view};

use crate::cutting::{Pieces, cut_at, is_blank, trimmed};
use crate::parse_statement::{Statement, statement_in};
use vv_base::object_name;

/// A line of a text.
#[derive(Drop)]
pub struct Line<'a> {
    /// The name that labels it.
    pub label: Option<&'a [u8]>,
    /// What it says.
    pub statement: Option<Statement<'a>>,
}

/// A line with a statement.
fn saying<'a>(label: Option<&'a [u8]>, text: &'a [u8]) -> Option<Line<'a>>
    ensures { option_map source_line_view result ≡ saying (option_copied label.entry) text.now }
{
    match statement_in(text) {
        Some(statement) => Some(Line {
            label,
            statement: Some(statement),
        }),
        None => None,
    }
}

/// A line with a label, by what follows the colon.
fn after_label<'a>(name: &'a [u8], text: &'a [u8]) -> Option<Line<'a>>
    ensures { option_map source_line_view result ≡ after_label name.now text.now }
{
    match text {
        [] => Some(Line {
            label: Some(name),
            statement: None,
        }),
        [b, rest @ ..] if is_blank(*b) => saying(Some(name), rest),
        _ => None,
    }
}

/// A line without a label.
fn unlabelled(text: &[u8]) -> Option<Line<'_>>
    ensures { option_map source_line_view result ≡ unlabelled text.now }
{
    match text {
        [] => Some(Line {
            label: None,
            statement: None,
        }),
        _ => saying(None, text),
    }
}

/// A line without its comment and the blanks at its ends.
#[tactic(auto, unfolding(vasm_text::specs::Statements::content_in))]
fn content_in(text: &[u8]) -> Option<Line<'_>>
    ensures { option_map source_line_view result ≡ content_in text.now }
{
    match cut_at(text, b':') {
        None => unlabelled(text),
        Some(pieces) => {
            if object_name(pieces.before).is_none() {
                return None;
            }
            after_label(pieces.before, pieces.later)
        }
    }
}

/// What comes before a comment.
fn before_comment(text: &[u8]) -> &[u8]
    ensures { result.now ≡ before_mark 59 text.now }
{
    match cut_at(text, b';') {
        Some(pieces) => pieces.before,
        None => text,
    }
}

/// What a line says; None exactly where it is of no form.
#[tactic(auto, unfolding(vasm_text::specs::Statements::source_line_in))]
pub fn line_in(text: &[u8]) -> Option<Line<'_>>
    ensures { option_map source_line_view result ≡ source_line_in text.now }
{
    content_in(trimmed(before_comment(text)))
}
