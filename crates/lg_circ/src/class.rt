//! The bytes that the pieces of a text are made of.

ghost use Rattle.std.specs.Prelude.{◌≡◌};
ghost use Rattle.std.specs.List.{prefix_len};
ghost use Rattle.lg_circ.specs.Grammar.{begins_name};
ghost use Rattle.lg_circ.specs.Reading.{passes, begins, front_of, rest_of};

/// Which bytes a piece of the text is made of.
#[derive(Clone, Copy)]
pub enum Class {
    /// Space, tab, carriage return and line feed.
    White,
    /// What a name begins with.
    NameStart,
    /// What a name goes on with.
    Name,
    /// What the name or the number of a character is made of: ASCII letters, digits and `#`.
    Reference,
    /// All but `&`.
    Own,
    /// All but `<`.
    Characters,
    /// All but `<` and `"`.
    Double,
    /// All but `<` and `'`.
    Single,
    /// `>` and `/`.
    TagEnd,
}

impl Class {
    /// Whether the byte is of the class.
    pub fn holds(self, c: u8) -> bool
        ensures { result ≡ passes self c }
    {
        match self {
            Class::White => c == b' ' || c == b'\t' || c == b'\r' || c == b'\n',
            Class::NameStart => starts_name(c),
            Class::Name => starts_name(c) || c.is_ascii_digit() || c == b'-' || c == b'.',
            Class::Reference => c.is_ascii_alphabetic() || c.is_ascii_digit() || c == b'#',
            Class::Own => c != b'&',
            Class::Characters => c != b'<',
            Class::Double => c != b'<' && c != b'"',
            Class::Single => c != b'<' && c != b'\'',
            Class::TagEnd => c == b'>' || c == b'/',
        }
    }
}

fn starts_name(c: u8) -> bool
    ensures { result ≡ begins_name c }
{
    c.is_ascii_alphabetic() || c == b'_' || c == b':'
}

/// Whether the first byte is of the class.
pub fn begins_with(text: &str, class: Class) -> bool
    ensures { result ≡ begins (passes class) text.now }
{
    match text.as_bytes() {
        [] => false,
        [first, ..] => class.holds(*first),
    }
}

/// How many bytes at the front are of the class.
fn front_len(bytes: &[u8], class: Class) -> usize
    ensures { result ≡ prefix_len (passes class) bytes.now }
{
    for (at, c) in bytes.iter().enumerate() {
        if !class.holds(*c) {
            return at;
        }
    }
    bytes.len()
}

/// The bytes of the class at the front, and what follows them.
pub fn split_after(text: &str, class: Class) -> (&str, &str)
    ensures front { result.0.now ≡ front_of (passes class) text.now }
    ensures rest { result.1.now ≡ rest_of (passes class) text.now }
{
    text.split_at(front_len(text.as_bytes(), class))
}

/// What follows the bytes of the class at the front.
pub fn skip(text: &str, class: Class) -> &str
    ensures { result.now ≡ rest_of (passes class) text.now }
{
    split_after(text, class).1
}
