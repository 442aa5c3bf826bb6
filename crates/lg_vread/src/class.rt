//! The bytes that tokens are made of.

ghost use Rattle.std.specs.Prelude.{◌≡◌, ◌≤◌, length, drop};
ghost use Rattle.lg_vtree.specs.Grammar.{is_white};
ghost use Rattle.std.specs.List.{prefix_len};
ghost use Rattle.lg_vread.specs.Lexing.{passes, lexemes, first_word, token_len};

/// Bytes that run on in one token, or in the white space between two.
#[derive(Clone, Copy)]
pub enum Class {
    /// Space, tab, carriage return and line feed.
    White,
    /// Letters, digits, `_` and `'`.
    Word,
    /// `<`, `=` and `>`.
    Angle,
}

impl Class {
    /// Whether the byte is of the class.
    pub fn holds(self, c: u8) -> bool
        ensures { result ≡ passes self c }
    {
        match self {
            Class::White => c == b' ' || c == b'\t' || c == b'\r' || c == b'\n',
            Class::Word => c.is_ascii_alphanumeric() || c == b'_' || c == b'\'',
            Class::Angle => c == b'<' || c == b'=' || c == b'>',
        }
    }
}

/// How many bytes at the front are of the class.
pub fn front_len(bytes: &[u8], class: Class) -> usize
    ensures value { result ≡ prefix_len (passes class) bytes.now }
    ensures within { result ≤ length bytes.now }
{
    for (at, c) in bytes.iter().enumerate() {
        if !class.holds(*c) {
            return at;
        }
    }
    bytes.len()
}

/// How many bytes the token has that the bytes begin with.
fn token_len(bytes: &[u8]) -> usize
    ensures value { result ≡ token_len bytes.now }
    ensures within { result ≤ length bytes.now }
{
    match bytes {
        [] => 0,
        [first, ..] => {
            if Class::Word.holds(*first) {
                front_len(bytes, Class::Word)
            } else if Class::Angle.holds(*first) {
                front_len(bytes, Class::Angle)
            } else {
                1
            }
        }
    }
}

/// The first token of a text, which has no byte where there is none, and what follows it.
pub fn split_token(bytes: &[u8]) -> (&[u8], &[u8])
    ensures { lexemes bytes.now ≡ first_word result.0.now (lexemes result.1.now) }
{
    let text = skip_white(bytes);
    text.split_at(token_len(text))
}

/// What follows the white space at the front.
fn skip_white(bytes: &[u8]) -> &[u8]
    ensures { result.now ≡ drop (prefix_len is_white bytes.now) bytes.now }
{
    bytes.split_at(front_len(bytes, Class::White)).1
}
