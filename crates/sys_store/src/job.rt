ghost use Rattle.std.specs.Prelude.{◌≡◌, ◌+◌, ◌≤◌, ◌++◌, length, map};
ghost use Rattle.sys_store.specs.Job.{job_text, shown};

use vv_base::{Name, Text};
use vv_class::{AccessClass, write_class};

fn shown(b: u8) -> u8
    ensures { result ≡ shown b }
{
    if 0x20 <= b && b <= 0x7E { b } else { b'.' }
}

/// Appends bytes as a printer shows them.
fn add_shown(text: &mut Text<640>, bytes: &[u8])
    requires { length text.old + length bytes.now ≤ 640 }
    ensures written { text.new ≡ text.old ++ map shown bytes.now }
    ensures len { length text.new ≡ length text.old + length bytes.now }
{
    for b in bytes {
        text.append_byte(shown(*b));
    }
}

/// What a printer gets of a guest's text of at most 132 bytes.
#[tactic(auto, unfolding(crate::specs::Job::job_text))]
pub fn print_job(class: &AccessClass, guest: &Name, text: &[u8]) -> Text<640>
    requires { length text.now ≤ 132 }
    ensures { result ≡ job_text class.now guest.now text.now }
{
    let mut job = Text::new();
    job.append(write_class(class).bytes());
    job.append(b" ");
    job.append(guest.bytes());
    job.append(b": ");
    add_shown(&mut job, text);
    job.append(b"\r\n");
    job
}
