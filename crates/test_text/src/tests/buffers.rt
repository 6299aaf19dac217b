//! Texts that are appended piece by piece.

use std::alloc::Global;
use std::test::Fail;
use text_buffer::TextBuffer;

/// The text that `put_pieces` appends.
const PIECES: &str = "a =-7  4242   -42";

// Appends a piece of each kind.
fn put_pieces(text: &mut TextBuffer) {
    text.push_str("a ");
    text.push_ascii(b'=');
    text.push_number(-7i64);
    text.push_right_aligned(4, 42);
    text.push_left_aligned(4, 42);
    text.push_right_aligned_signed(4, -42);
}

#[test]
fn writes_each_piece(rt: HostRuntime) -> Result<(), Fail> {
    let alloc: Global = rt.alloc();
    let mut text = TextBuffer::new(alloc);
    put_pieces(&mut text);
    assert!(rt; text.into_string()?.as_str() == PIECES);
    let mut text = TextBuffer::new(alloc);
    put_pieces(&mut text);
    assert!(rt; text.into_vec()?.as_slice() == PIECES.as_bytes());
    Ok(())
}
