ghost use Rattle.std.specs.Prelude.{◌≡◌, ◌≤◌, length};
ghost use Rattle.vax_table.specs.Reading.{operands_at, answer_of, decoded_at};
ghost use Rattle.vax_decode.specs.Seen.{all_pieces_view, answer_with};
ghost use Rattle.vax_decode.specs.Decoding.{IsAnswer, Decodes};

use crate::outcome::{Decode, DecodeFault, Front};
use crate::read::{Piece, operand};
use arrayvec::ArrayVec;
use vax_table::{Decoded, Form, Spec, row};

/// The bytes after the operands at the front of bytes, or why there are none.
pub enum Pieces<'a> {
    Got(&'a [u8]),
    More,
    Bad,
}

/// The operands of the forms, in order, in place of others.
fn operands<'a>(forms: &[Form], b: &'a [u8], specs: &mut ArrayVec<Spec, 4>) -> Pieces<'a>
    requires { length forms.now ≤ 4 }
    ensures { all_pieces_view specs.new.items result ≡ operands_at forms.now b.now }
{
    specs.clear();
    let mut rest = b;
    for form in forms {
        match operand(*form, rest) {
            Piece::Got(spec, later) => {
                specs.push(spec);
                rest = later;
            }
            Piece::More => {
                return Pieces::More;
            }
            Piece::Bad => {
                return Pieces::Bad;
            }
        }
    }
    Pieces::Got(rest)
}

/// An instruction of an opcode, by its operands' forms and the bytes after the opcode.
fn after_opcode(opcode: u8, forms: &[Form], b: &[u8], decoded: &mut Decoded) -> Front
    requires { length forms.now ≤ 4 }
    ensures { IsAnswer (answer_with decoded.new result) (answer_of opcode b.now (operands_at forms.now b.now)) }
{
    match operands(forms, b, &mut decoded.specs) {
        Pieces::Got(rest) => {
            decoded.opcode = opcode;
            decoded.wait = false;
            decoded.length = 1 + (b.len() - rest.len()) as u8;
            Front::Done
        }
        Pieces::More => Front::NeedMore,
        Pieces::Bad => Front::Fault(DecodeFault::Addressing),
    }
}

/// What is at the front of the bytes, and the instruction, where there is one.
#[tactic(auto, unfolding(vax_table::specs::Reading::decoded_at))]
fn scan(b: &[u8], decoded: &mut Decoded) -> Front
    ensures { IsAnswer (answer_with decoded.new result) (decoded_at b.now) }
{
    match b {
        [] | [0xfd] => Front::NeedMore,
        [0xfd, 1, ..] => {
            decoded.opcode = 0xfd;
            decoded.wait = true;
            decoded.length = 2;
            decoded.specs.clear();
            Front::Done
        }
        [0xfd, ..] => Front::Fault(DecodeFault::Opcode),
        [opcode, rest @ ..] => match row(*opcode) {
            None => Front::Fault(DecodeFault::Opcode),
            Some(row) => after_opcode(*opcode, row.operands.as_slice(), rest, decoded),
        },
    }
}

/// The instruction at the front of the bytes goes to `decoded`: `Done` exactly where some front of them spells it, and else as
/// `decode` answers. Where there is none, `decoded` is unspecified.
pub fn decode_into(b: &[u8], decoded: &mut Decoded) -> Front
    ensures spells { Decodes b.now (answer_with decoded.new result) }
    ensures reads { IsAnswer (answer_with decoded.new result) (decoded_at b.now) }
{
    scan(b, decoded)
}

/// The instruction at the front of the bytes: `Done` exactly where some front of them spells it, and `NeedMore` exactly where
/// they are a proper front of a spelling. Else it is a fault: `Opcode` where no instruction has the opcode bytes, and
/// `Addressing` otherwise.
pub fn decode(b: &[u8]) -> Decode
    ensures spells { Decodes b.now result }
    ensures reads { IsAnswer result (decoded_at b.now) }
{
    let mut decoded = Decoded {
        opcode: 0,
        wait: false,
        length: 0,
        specs: ArrayVec::new(),
    };
    match decode_into(b, &mut decoded) {
        Front::Done => Decode::Done(decoded),
        Front::NeedMore => Decode::NeedMore,
        Front::Fault(fault) => Decode::Fault(fault),
    }
}
