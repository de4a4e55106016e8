ghost use Rattle.vasm_text.specs.Apart.{AreApart};

/// No two instructions have one name, and every instruction of the table has one.
#[tactic(auto, using(crate::proofs::Apart::are_apart))]
pub fn names_are_apart()
    ensures { AreApart }
{}
