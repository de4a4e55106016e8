ghost use Rattle.std.specs.Prelude.{◌≡◌, ◌≤◌, ◌+◌, length, decimal};
ghost use Rattle.vm_stepping.specs.Made.{steps_in, tally_of};
ghost use Rattle.vvmm_call.specs.Summary.{check_line, summary, trailer, with_summary_field};

use sys_objects::Config;
use vm_guest::Counts;
use vv_base::{Text, decimal, hex};

/// A line that is shown.
pub type Line = Text<512>;

/// A word and a number after a text.
#[tactic(auto, unfolding(crate::specs::Summary::with_summary_field))]
fn add(text: &mut Line, word: &[u8], number: u64)
    requires { length text.old + length word.now + 20 ≤ 512 }
    ensures text { text.new ≡ with_summary_field text.old word.now number }
    ensures grows { length text.new ≤ length text.old + length word.now + 20 }
{
    text.append(word);
    text.append(decimal(number).bytes());
}

/// The trail after a text, and the end of the line.
#[tactic(auto, unfolding(crate::specs::Summary::trailer))]
fn end(text: &mut Line, trail: u64)
    requires { length text.old + 40 ≤ 512 }
    ensures { text.new ≡ trailer text.old trail }
{
    text.append(b" trail ");
    text.append(hex(trail, 16).bytes());
    text.append(b"\n");
}

/// The steps of every kind.
fn all_steps(counts: &Counts) -> u64
    requires { steps_in counts.now ≤ 3200000000000 }
    ensures { result ≡ steps_in counts.now }
{
    counts.plain
        + counts.sensitive
        + counts.faults
        + counts.interrupts
        + counts.modify
        + counts.idle
        + counts.stopped
}

/// The line of a run's summary.
pub fn summary(rounds: u32, counts: &Counts) -> Line
    requires { steps_in counts.now ≤ 3200000000000 }
    ensures { result ≡ summary rounds (tally_of counts.now) }
{
    let mut text = Text::new();
    add(&mut text, b"rounds ", u64::from(rounds));
    add(&mut text, b" steps ", all_steps(counts));
    add(&mut text, b" plain ", counts.plain);
    add(&mut text, b" sensitive ", counts.sensitive);
    add(&mut text, b" faults ", counts.faults);
    add(&mut text, b" interrupts ", counts.interrupts);
    add(&mut text, b" modify ", counts.modify);
    add(&mut text, b" idle ", counts.idle);
    add(&mut text, b" stopped ", counts.stopped);
    end(&mut text, counts.trail);
    text
}

/// The line of `check`.
pub fn check_line(config: &Config) -> Line
    ensures { result ≡ check_line config.now }
{
    let mut text = Text::new();
    add(&mut text, b"terminals ", config.terminals.len() as u64);
    add(&mut text, b" volumes ", config.volumes.len() as u64);
    add(&mut text, b" printers ", config.printers.len() as u64);
    add(&mut text, b" guests ", config.guests.len() as u64);
    text.append(b"\n");
    text
}
