//! A row of bits, which holds numbers: the number n is bit n % 64 of word n / 64.

ghost use Rattle.std.specs.Prelude.{◌≡◌, ◌/◌, ◌<◌, ◌^◌, length};
ghost use Rattle.std.specs.Bool.{MatchBool};
ghost use Rattle.lg_queue.specs.Row.{HasAdded, HasTaken, HasNoneIn, HasSomeIn, IsLeastIn};

// Puts a number into a row.
pub(crate) fn add(words: &mut [u64], number: usize)
    requires { number / 64 < length words.old }
    ensures { HasAdded number words.old words.new }
{
    words[number / 64] |= 1 << (number % 64);
}

// Takes a number out of a row.
pub(crate) fn take(words: &mut [u64], number: usize)
    requires { number / 64 < length words.old }
    ensures { HasTaken number words.old words.new }
{
    words[number / 64] &= !(1 << (number % 64));
}

// Whether a word of a row has no number.
pub(crate) fn is_none_in(words: &[u64], word: usize) -> bool
    requires { word < length words.now }
    ensures { MatchBool result (HasNoneIn words.now word) (HasSomeIn words.now word) }
{
    words[word] == 0
}

// The least number of a word that has one.
pub(crate) fn least_in(words: &[u64], word: usize) -> usize
    requires small { word < 2 ^ 32 }
    requires some { HasSomeIn words.now word }
    ensures { IsLeastIn words.now word result }
{
    64 * word + words[word].trailing_zeros() as usize
}
