ghost use Rattle.vasm_dis.specs.Laws.{IsAssembledAgain, IsReadAgain};

/// The line of each instruction and of each byte is read as that instruction and that byte.
#[tactic(auto, using(crate::proofs::Again::read_again))]
pub fn reading_undoes_printing()
    ensures { IsReadAgain }
{}

/// Assembling the text of an image gives the image.
#[tactic(auto, using(crate::proofs::Again::assembled_again))]
pub fn assembling_undoes_disassembling()
    ensures { IsAssembledAgain }
{}
