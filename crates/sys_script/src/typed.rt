ghost use Rattle.std.specs.Prelude.{◌≡◌, ◌≤◌, length};
ghost use Rattle.sys_script.specs.Kinds.{kind_text};
ghost use Rattle.sys_script.specs.Typed.{MeansTyped, SaysWithRound};

use crate::ScriptKind;

/// The name of a kind of refusal.
pub fn kind_text(kind: ScriptKind) -> &'static [u8]
    ensures is { result.now ≡ kind_text kind }
    ensures short { length result.now ≤ 10 }
{
    match kind {
        ScriptKind::BadRound => b"BadRound",
        ScriptKind::BadName => b"BadName",
        ScriptKind::BadEvent => b"BadEvent",
        ScriptKind::BadText => b"BadText",
        ScriptKind::RoundFalls => b"RoundFalls",
    }
}

/// A line without its round says in each round what the script's line says that has the round's number in front.
#[tactic(auto, using(crate::proofs::TypedLines::says_with_round))]
pub fn typed_line_law()
    ensures { SaysWithRound }
{}

/// The events of lines that were typed are the meaning of the script that is made of them.
#[tactic(auto, using(crate::proofs::TypedLines::means_typed))]
pub fn typed_law()
    ensures { MeansTyped }
{}
