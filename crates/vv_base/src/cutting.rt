ghost use Rattle.std.specs.Prelude.{◌≡◌, ◌==◌, ◌<◌, ◌∷◌, IfSome, length, position};
ghost use Rattle.std.specs.Str.Lines.{lines, strip_carriage_return};

/// The place of the first byte that is the mark.
pub fn find(text: &[u8], mark: u8) -> Option<usize>
    ensures value { result ≡ position (λ b. b == mark) text.now }
    ensures within { IfSome result (λ i. i < length text.now) }
{
    text.iter().position(|b| *b == mark)
}

/// A line without the carriage return at its end.
fn without_return(line: &[u8]) -> &[u8]
    ensures { result.now ≡ strip_carriage_return line.now }
{
    match line {
        [rest @ .., b'\r'] => rest,
        _ => line,
    }
}

/// The first line of a text, without its end, and the text after it.
pub fn first_line(text: &[u8]) -> (&[u8], &[u8])
    requires { 0 < length text.now }
    ensures cut { lines text.now ≡ result.0.now ∷ lines result.1.now }
    ensures shorter { length result.1.now < length text.now }
{
    match find(text, b'\n') {
        Some(end) => (without_return(&text[..end]), &text[end + 1..]),
        None => (text, b""),
    }
}
