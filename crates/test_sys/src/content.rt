use std::alloc::Global;

/// What is at a place.
#[derive(Clone, Copy)]
pub enum Piece {
    Bytes(&'static [u8]),
    Longs(&'static [u32]),
}

/// Pieces by their places, over zeros; a later one overwrites an earlier one.
pub type Content = &'static [(usize, Piece)];

/// Puts bytes at a place, as far as they fit.
fn put_bytes(into: &mut [u8], at: usize, bytes: &[u8]) {
    for (k, b) in bytes.iter().enumerate() {
        let place = at.saturating_add(k);
        if place < into.len() {
            into[place] = *b;
        }
    }
}

/// Puts longwords from a place on, as far as they fit.
fn put_longs(into: &mut [u8], at: usize, longs: &[u32]) {
    for (k, long) in longs.iter().enumerate() {
        let place = at.saturating_add(k.saturating_mul(4));
        put_bytes(into, place, &long.to_le_bytes());
    }
}

/// Puts the pieces at their places, as far as they fit.
fn put_content(into: &mut [u8], content: Content) {
    for (at, piece) in content {
        match piece {
            Piece::Bytes(bytes) => put_bytes(into, *at, bytes),
            Piece::Longs(longs) => put_longs(into, *at, longs),
        }
    }
}

/// How many bytes a piece has.
fn size_of_piece(piece: &Piece) -> usize {
    match piece {
        Piece::Bytes(bytes) => bytes.len(),
        Piece::Longs(longs) => longs.len().saturating_mul(4),
    }
}

/// Where the last piece ends.
fn end_of(content: Content) -> usize {
    let mut end = 0;
    for (at, piece) in content {
        end = end.max(at.saturating_add(size_of_piece(piece)));
    }
    end
}

/// The bytes from 0 to the end of the last piece.
pub fn bytes_of(alloc: Global, content: Content) -> Option<Vec<u8>> {
    let mut bytes = vec![in alloc; 0; end_of(content)].ok()?;
    put_content(&mut bytes, content);
    Some(bytes)
}

/// A block of a drive.
pub fn block_of(content: Content) -> [u8; 512] {
    let mut block = [0; 512];
    put_content(&mut block, content);
    block
}
