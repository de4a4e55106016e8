ghost use Rattle.std.specs.Prelude.{◌≡◌};
ghost use Rattle.std.specs.Str.Lines.{strip_carriage_return};

use vv_io::KeyLine;

/// A typed line without the carriage return at its end.
pub fn without_return(line: KeyLine) -> KeyLine
    ensures { result ≡ strip_carriage_return line }
{
    match line.bytes() {
        [front @ .., b'\r'] => KeyLine::from_bytes(front),
        _ => line,
    }
}
