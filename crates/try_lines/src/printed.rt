// What is printed: numbers, and answers with any bytes.
use cases::text::{put_byte, put_number, put_text};

// A number and the text before it.
pub fn put(text: &[u8], n: u16) {
    put_text(text);
    put_number(u64::from(n));
}

// A byte as it is, or as a backslash and two digits.
fn put_shown_byte(b: u8) {
    if b != b'\\' && matches!(b, b' '..=b'~') {
        put_text(&[b]);
        return;
    }
    put_text(b"\\");
    put_byte(b);
}

// The first n bytes, or all where there are fewer. No slice is taken: a call of `lines` or `stream` writes to a lent buffer, and answers n.
pub fn put_shown(text: &[u8], n: usize) {
    for &b in text.iter().take(n) {
        put_shown_byte(b);
    }
}
