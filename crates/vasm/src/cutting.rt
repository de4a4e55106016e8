ghost use Rattle.std.specs.Prelude.{◌≡◌, ◌==◌, ◌+◌, ◌<◌, length, take, drop, option_map, IfSome};
ghost use Rattle.std.specs.List.{position};
ghost use Rattle.vasm_text.specs.Cutting.{is_blank, cut, cut_at, trimmed, without_back, without_front};
ghost use Rattle.vasm.specs.Pieces.{cut_view};

use vv_base::find;

/// A text in two: what comes before a mark, and after it.
#[derive(Clone, Copy)]
pub struct Pieces<'a> {
    /// What comes before the mark.
    pub before: &'a [u8],
    /// What follows it.
    pub later: &'a [u8],
}

pub(crate) fn is_blank(b: u8) -> bool
    ensures { result ≡ is_blank b }
{
    b == b' ' || b == b'\t'
}

fn find_blank(text: &[u8]) -> Option<usize>
    ensures value { result ≡ position is_blank text.now }
    ensures within { IfSome result (λ i. i < length text.now) }
{
    text.iter().position(|b| is_blank(*b))
}

/// What comes before a place, and after it.
fn split(text: &[u8], at: usize) -> Pieces<'_>
    requires { at < length text.now }
    ensures { cut_view result ≡ record { before = take at text.now; later = drop (at + 1) text.now } }
{
    Pieces {
        before: &text[..at],
        later: &text[at + 1..],
    }
}

/// A text at the first byte that is the mark.
pub(crate) fn cut_at(text: &[u8], mark: u8) -> Option<Pieces<'_>>
    ensures { option_map cut_view result ≡ cut_at mark text.now }
{
    match find(text, mark) {
        Some(at) => Some(split(text, at)),
        None => None,
    }
}

/// A text at its first blank.
pub(crate) fn cut_blank(text: &[u8]) -> Option<Pieces<'_>>
    ensures { option_map cut_view result ≡ cut is_blank text.now }
{
    match find_blank(text) {
        Some(at) => Some(split(text, at)),
        None => None,
    }
}

/// A text without the blanks at its front.
fn without_front(text: &[u8]) -> &[u8]
    ensures { result.now ≡ without_front text.now }
{
    let mut rest = text;
    while let [b, later @ ..] = rest
        && is_blank(*b)
    {
        rest = later;
    }
    rest
}

/// A text without the blanks at its back.
fn without_back(text: &[u8]) -> &[u8]
    ensures { result.now ≡ without_back text.now }
{
    let mut rest = text;
    while let [before @ .., b] = rest
        && is_blank(*b)
    {
        rest = before;
    }
    rest
}

/// A text without the blanks at both ends.
pub(crate) fn trimmed(text: &[u8]) -> &[u8]
    ensures { result.now ≡ trimmed text.now }
{
    without_back(without_front(text))
}
