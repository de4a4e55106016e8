ghost use Rattle.std.specs.Prelude.{◌≡◌, ◌≤◌, length};
ghost use Rattle.vv_edge.specs.Ends.{PutsIfAny, end_text, report_of};
ghost use Rattle.vvmm_files.specs.Answers.{code_of};

use crate::hints::{Told, hint};
use sys_devices::put_once;
use vv_base::Text;
use vv_io::Sink;
use vvmm_files::{Status, status_code, status_text};

/// The text of an end.
type End = Text<8448>;

/// The line on an answer.
fn report(status: &Status) -> End
    ensures is { result ≡ report_of status.now }
    ensures short { length result ≤ 128 }
{
    let mut text = Text::new();
    if matches!(status, Status::Done) {
        return text;
    }
    text.append(b"vvmm: ");
    text.append(status_text(status).bytes());
    text.append(b"\n");
    text
}

/// The text of an answer: its line, and on a terminal what to do about it.
fn end_text(is_terminal: bool, status: &Status, told: &Told) -> End
    ensures { result ≡ end_text is_terminal status.now told.now }
{
    let mut text = report(status);
    if is_terminal {
        text.append(hint(status, told).bytes());
    }
    text
}

/// Puts bytes once, if there are some.
fn tell<E: Sink>(bytes: &[u8], errors: &mut E)
    ensures { PutsIfAny bytes.now (E.printed errors.old) (E.printed errors.new) }
{
    if bytes.is_empty() {
        return;
    }
    let _ = put_once(errors, bytes);
}

/// Shows on `errors` how the program ends, all in one put, and gives its exit code. A fault of `errors` changes nothing.
pub fn conclude<E: Sink>(status: &Status, told: &Told, is_terminal: bool, errors: &mut E) -> u8
    ensures code { result ≡ code_of status.now }
    ensures tells { PutsIfAny (end_text is_terminal status.now told.now) (E.printed errors.old) (E.printed errors.new) }
{
    tell(end_text(is_terminal, status, told).bytes(), errors);
    status_code(status)
}
