//! Words, white space and comments of an image.

ghost use Rattle.std.specs.Prelude.{◌≡◌, ◌≤◌, false, length, drop};
ghost use Rattle.std.specs.List.{prefix_len};
ghost use Rattle.lg_memory.specs.Image.{is_white};
ghost use Rattle.lg_memory.specs.Scan.{after_gap, is_word_byte};

// The text from its first word on.
pub fn skip_gap(text: &[u8]) -> &[u8]
    ensures { result.now ≡ after_gap false text.now }
{
    &text[gap_len(text)..]
}

// How long the white space and the comments are before the first word.
fn gap_len(text: &[u8]) -> usize
    ensures within { result ≤ length text.now }
    ensures rest { drop result text.now ≡ after_gap false text.now }
{
    let mut inside = false;
    for (place, byte) in text.iter().enumerate() {
        if *byte == b'\n' {
            inside = false;
        } else if inside || *byte == b'#' {
            inside = true;
        } else if !is_white(*byte) {
            return place;
        }
    }
    text.len()
}

// How long the word is with which a text begins.
pub fn word_len(text: &[u8]) -> usize
    ensures within { result ≤ length text.now }
    ensures word { result ≡ prefix_len is_word_byte text.now }
{
    for (place, byte) in text.iter().enumerate() {
        if is_white(*byte) || *byte == b'#' {
            return place;
        }
    }
    text.len()
}

fn is_white(byte: u8) -> bool
    ensures { result ≡ is_white byte }
{
    matches!(byte, b' ' | b'\t' | b'\r' | b'\n')
}
