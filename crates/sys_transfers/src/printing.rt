ghost use Rattle.std.specs.Prelude.{◌≡◌, ◌<◌, option_map, All, IfSome};
ghost use Rattle.sys_devices.specs.Shows.{Shows, only_on};
ghost use Rattle.sys_objects.specs.Condition.{IsPrinter};
ghost use Rattle.sys_state.specs.State.{bytes_on};
ghost use Rattle.sys_state.specs.Transfers.{printer_of};
ghost use Rattle.sys_transfers.specs.Serves.{job_on};

use sys_devices::{Marks, show_whole};
use sys_objects::Config;
use vv_base::Text;
use vv_io::Lines;

/// The line of a guest's printer.
fn printer_line(config: &Config, printer: Option<u8>) -> Option<u8>
    ensures { result ≡ option_map (λ q. q.line) (printer_of config.now printer) }
{
    let place = printer?;
    let row = config.printers.as_slice().get(place as usize)?;
    Some(row.line)
}

/// Puts bytes on a line in one put, if there is one.
fn show_on<L: Lines>(marks: &mut Marks, lines: &mut L, place: Option<u8>, bytes: &[u8])
    requires { IfSome place (λ line. line < 32) }
    ensures { Shows marks.old marks.new (L.lines lines.old) (L.lines lines.new) (only_on place bytes.now) }
{
    if let Some(line) = place {
        show_whole(marks, lines, line, bytes);
    }
}

/// A guest's printer gets a job, if there is one of each.
pub fn print_job_on<L: Lines>(
    marks: &mut Marks,
    lines: &mut L,
    config: &Config,
    printer: Option<u8>,
    job: &Option<Text<640>>,
)
    requires { All IsPrinter config.now.printers }
    ensures { Shows marks.old marks.new (L.lines lines.old) (L.lines lines.new) (λ k. bytes_on k (job_on (printer_of config.now printer) job.now)) }
{
    if let Some(text) = job {
        let line = printer_line(config, printer);
        show_on(marks, lines, line, text.bytes());
    }
}
