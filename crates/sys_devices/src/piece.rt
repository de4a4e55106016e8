ghost use Rattle.std.specs.Prelude.{◌≡◌, ◌≤◌, ◌+◌, ◌++◌, IfOk, length, is_err};
ghost use Rattle.sys_devices.specs.Echo.{seen_byte};
ghost use Rattle.sys_devices.specs.Pieces.{IsEcho, begun_after, echo_bytes, end_if, front_if};
ghost use Rattle.sys_devices.specs.ShownSince.{ShownSince};

use vv_base::{Name, Text};
use vv_io::{Sink, SinkFault};

/// What is shown of at most 512 bytes: 11 bytes for each at most.
pub type Piece = Text<6144>;

/// A blank or a character that prints as itself, any other byte as a point.
fn seen_byte(byte: u8) -> u8
    ensures { result ≡ seen_byte byte }
{
    if 0x20 <= byte && byte <= 0x7E {
        byte
    } else {
        b'.'
    }
}

/// The terminal's name where a line begins.
fn begin(piece: &mut Piece, name: &Name, is_begun: bool)
    requires { length piece.old + 10 ≤ 6144 }
    ensures is { piece.new ≡ piece.old ++ front_if is_begun name.now }
    ensures short { length piece.new ≤ length piece.old + 10 }
{
    if !is_begun {
        piece.append(name.bytes());
        piece.append(b": ");
    }
}

/// What is shown of some bytes after a line that is begun or isn't, and whether one is begun after them.
fn render(name: &Name, is_begun: bool, bytes: &[u8]) -> (Piece, bool)
    requires { length bytes.now ≤ 512 }
    ensures piece { result.0 ≡ echo_bytes name.now is_begun bytes.now }
    ensures begun { result.1 ≡ begun_after is_begun bytes.now }
{
    let mut piece = Piece::new();
    let mut is_begun = is_begun;
    for byte in bytes {
        if *byte == b'\r' {
            continue;
        }
        begin(&mut piece, name, is_begun);
        is_begun = *byte != b'\n';
        let shown = if is_begun { seen_byte(*byte) } else { b'\n' };
        piece.append_byte(shown);
    }
    (piece, is_begun)
}

/// Puts what is shown of some bytes after a line that is begun or isn't; whether one is begun after them.
pub fn put_piece<O: Sink>(
    out: &mut O,
    name: &Name,
    is_begun: bool,
    bytes: &[u8],
) -> Result<bool, SinkFault>
    requires { length bytes.now ≤ 512 }
    ensures shown { ShownSince (is_err result) (O.printed out.old) (O.printed out.new) (echo_bytes name.now is_begun bytes.now) }
    ensures begun { IfOk result (λ b. b ≡ begun_after is_begun bytes.now) }
{
    let (piece, is_begun) = render(name, is_begun, bytes);
    out.put(piece.bytes())?;
    Ok(is_begun)
}

/// Ends a line that is begun.
pub fn put_end<O: Sink>(out: &mut O, is_begun: bool) -> Result<(), SinkFault>
    ensures { ShownSince (is_err result) (O.printed out.old) (O.printed out.new) (end_if is_begun) }
{
    if is_begun {
        out.put(b"\n")?;
    }
    Ok(())
}

/// Pieces, put one after another, and the end of a line that is begun are the echo of all of their bytes.
pub fn pieces_law()
    ensures { IsEcho }
{}
