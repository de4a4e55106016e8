ghost use Rattle.std.specs.Prelude.{Ok};
ghost use Rattle.vasm.specs.Listing.{listing_of};
ghost use Rattle.vasm_text.specs.Asm.{asm_of};
ghost use Rattle.vasm_text.specs.Dis.{dis_of};
ghost use Rattle.vvmm_files.specs.Commands.{FollowsFile, ShowsToSink};

use crate::answer::Answer;
use std::alloc::Global;
use vasm::{assemble, list as listing};
use vasm_dis::disassemble;
use vasm_text::AsmError;
use vv_base::{FileName, NoMemory};
use vv_io::{Shelf, ShelfFault, Sink, SinkFault};

/// Puts bytes.
fn show<O: Sink>(out: &mut O, bytes: &[u8]) -> Answer
    ensures { ShowsToSink result (O.printed out.old) (O.printed out.new) bytes.now }
{
    match out.put(bytes) {
        Ok(()) => Answer::Done,
        Err(SinkFault) => Answer::OutFault,
    }
}

/// Shows the bytes that a source is assembled to. The source is fetched once, and the bytes are put once, where all
/// was well before.
pub fn asm<S: Shelf, O: Sink>(
    alloc: Global,
    source: &FileName,
    shelf: &mut S,
    out: &mut O,
) -> Answer
    ensures { FollowsFile asm_of source.now result (record { files = S.files shelf.old; shelf = S.faults shelf.old; shelf' = S.faults shelf.new; out = O.printed out.old; out' = O.printed out.new }) }
{
    let text = match shelf.fetch(alloc, source) {
        Ok(text) => text,
        Err(ShelfFault::Missing) => return Answer::Missing,
        Err(ShelfFault::TooLong) => return Answer::TooLong,
        Err(ShelfFault::Failed) => return Answer::ShelfFault,
        Err(ShelfFault::NoMemory) => return Answer::NoMemory,
    };
    match assemble(alloc, text.as_slice()) {
        Ok(bytes) => show(out, bytes.as_slice()),
        Err(AsmError::Fault(fault)) => Answer::Asm(fault),
        Err(AsmError::NoMemory) => Answer::NoMemory,
    }
}

/// Shows the listing of a source, which is fetched once and put once, where all was well before.
pub fn list<S: Shelf, O: Sink>(
    alloc: Global,
    source: &FileName,
    shelf: &mut S,
    out: &mut O,
) -> Answer
    ensures { FollowsFile listing_of source.now result (record { files = S.files shelf.old; shelf = S.faults shelf.old; shelf' = S.faults shelf.new; out = O.printed out.old; out' = O.printed out.new }) }
{
    let text = match shelf.fetch(alloc, source) {
        Ok(text) => text,
        Err(ShelfFault::Missing) => return Answer::Missing,
        Err(ShelfFault::TooLong) => return Answer::TooLong,
        Err(ShelfFault::Failed) => return Answer::ShelfFault,
        Err(ShelfFault::NoMemory) => return Answer::NoMemory,
    };
    match listing(alloc, text.as_slice()) {
        Ok(lines) => show(out, lines.as_slice()),
        Err(AsmError::Fault(fault)) => Answer::Asm(fault),
        Err(AsmError::NoMemory) => Answer::NoMemory,
    }
}

/// Shows the text of an image, which is fetched once and put once.
pub fn dis<S: Shelf, O: Sink>(alloc: Global, image: &FileName, shelf: &mut S, out: &mut O) -> Answer
    ensures { FollowsFile (λ bytes. Ok (dis_of bytes)) image.now result (record { files = S.files shelf.old; shelf = S.faults shelf.old; shelf' = S.faults shelf.new; out = O.printed out.old; out' = O.printed out.new }) }
{
    let bytes = match shelf.fetch(alloc, image) {
        Ok(bytes) => bytes,
        Err(ShelfFault::Missing) => return Answer::Missing,
        Err(ShelfFault::TooLong) => return Answer::TooLong,
        Err(ShelfFault::Failed) => return Answer::ShelfFault,
        Err(ShelfFault::NoMemory) => return Answer::NoMemory,
    };
    match disassemble(alloc, bytes.as_slice()) {
        Ok(text) => show(out, text.as_slice()),
        Err(NoMemory) => Answer::NoMemory,
    }
}
