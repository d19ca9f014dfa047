//! Showing a place of a text.

use lexer::is_blank;
use std::alloc::{AllocError, Global};

/// The text without the blanks at its end; a text of blanks stays as it is.
pub(crate) fn trimmed(text: &[u8]) -> &[u8] {
    text.iter()
        .rposition(|byte| !is_blank(*byte))
        .map_or(text, |last| &text[..=last])
}

// What of the text stands behind its last line feed.
fn last_line(text: &[u8]) -> &[u8] {
    text.iter()
        .rposition(|byte| *byte == b'\n')
        .map_or(text, |end| &text[end + 1..])
}

// What of the text stands before its first line feed.
fn first_line(text: &[u8]) -> &[u8] {
    text.iter()
        .position(|byte| *byte == b'\n')
        .map_or(text, |end| &text[..end])
}

// What stands under a byte that is before the caret: a tab stays a tab, and a carriage return and the later bytes of a
// character take no column.
fn under(byte: u8) -> Option<u8> {
    match byte {
        b'\t' => Some(b'\t'),
        b'\r' | 0x80..=0xbf => None,
        _ => Some(b' '),
    }
}

/// The line of the text that holds the place, and under it a caret. A place behind the text is shown at its end.
pub(crate) fn point(heap: Global, text: &[u8], place: usize) -> Result<Vec<u8>, AllocError> {
    let (before, behind) = text.split_at(place.min(text.len()));
    let before = last_line(before);
    let line = before.iter().chain(first_line(behind));
    let mut shown = Vec::new(heap);
    shown.extend(line.copied().filter(|byte| *byte != b'\r'))?;
    shown.push(b'\n')?;
    shown.extend(before.iter().filter_map(|byte| under(*byte)))?;
    shown.extend_from_slice(b"^\n")?;
    Ok(shown)
}
