//! Lines, comments and words.

ghost use Rattle.std.specs.Prelude.{◌≡◌, ◌==◌, ◌<◌, ◌≤◌, [], ◌∷◌, length, MatchOption, IfSome};
ghost use Rattle.std.specs.List.{position, prefix_len, position_or_len};
ghost use Rattle.std.specs.Str.Lines.{lines, strip_carriage_return};
ghost use Rattle.lg_vectors.specs.VectorText.{is_gap, words, uncommented};

// The first line of some bytes, and what follows its end.
pub fn split_line(bytes: &[u8]) -> (&[u8], &[u8])
    requires { 1 ≤ length bytes.now }
    ensures lines { lines bytes.now ≡ result.0.now ∷ lines result.1.now }
    ensures shorter { length result.1.now < length bytes.now }
{
    match place_of(bytes, b'\n') {
        Some(end) => (without_return(&bytes[..end]), &bytes[end + 1..]),
        None => (bytes, &bytes[bytes.len()..]),
    }
}

fn without_return(line: &[u8]) -> &[u8]
    ensures { result.now ≡ strip_carriage_return line.now }
{
    if !line.is_empty() && line[line.len() - 1] == b'\r' {
        &line[..line.len() - 1]
    } else {
        line
    }
}

// A line up to its comment.
pub fn uncommented(line: &[u8]) -> &[u8]
    ensures { result.now ≡ uncommented line.now }
{
    match place_of(line, b'#') {
        Some(end) => &line[..end],
        None => line,
    }
}

// The first word of a text, and what follows it.
pub fn next_word(text: &[u8]) -> Option<(&[u8], &[u8])>
    ensures words { MatchOption result (words text.now ≡ []) (λ p. words text.now ≡ p.0.now ∷ words p.1.now) }
    ensures shorter { IfSome result (λ p. length p.1.now < length text.now) }
{
    let start = &text[gap_len(text)..];
    if start.is_empty() {
        return None;
    }
    Some(start.split_at(word_len(start)))
}

fn gap_len(text: &[u8]) -> usize
    ensures within { result ≤ length text.now }
    ensures gap { result ≡ prefix_len is_gap text.now }
{
    for (place, byte) in text.iter().enumerate() {
        if !is_gap(*byte) {
            return place;
        }
    }
    text.len()
}

fn word_len(text: &[u8]) -> usize
    ensures within { result ≤ length text.now }
    ensures word { result ≡ position_or_len is_gap text.now }
{
    for (place, byte) in text.iter().enumerate() {
        if is_gap(*byte) {
            return place;
        }
    }
    text.len()
}

fn is_gap(byte: u8) -> bool
    ensures { result ≡ is_gap byte }
{
    byte == b' ' || byte == b'\t'
}

// The first place of a byte.
pub fn place_of(text: &[u8], byte: u8) -> Option<usize>
    ensures { result ≡ position (λ c. c == byte) text.now }
{
    text.iter().position(|c| *c == byte)
}
