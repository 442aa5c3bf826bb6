//! The names of pins, after their labels.

ghost use Rattle.std.specs.Prelude.{◌≡◌, [], ◌∷◌, ◌++◌, reverse, true, All, IfOk, IsTrue, string_bytes};
ghost use Rattle.std.specs.BTreeMap.{get_by_text};
ghost use Rattle.std.specs.List.{flat_map, IsDistinct};
ghost use Rattle.std.specs.Str.{bytes_eq, IsAscii};
ghost use Rattle.lg_text.specs.NameByte.{is_name_byte};
ghost use Rattle.lg_names.specs.Names.{is_continuation, without_spaces, trimmed, cleaned_byte, name_of_label, is_taken, numbered_name, IsFirstFree, IsFreeName, AreNames, is_pin_name};
ghost use Rattle.lg_names.specs.NextNumbers.{IsTriedTo, KnowsTaken, IsFirstFreeNumber};

use lg_text::Text;
use sqlite_items::Items;
use std::alloc::{AllocError, Global};
use std::collections::BTreeMap;

/// How many characters a name has at most before it is numbered.
pub const LONGEST_NAME: usize = 256;

// The number that a name gets first where the name is taken.
const FIRST_NUMBER: u64 = 2;

/// The names of pins with these labels, in order: the label without the spaces at its ends, with `_` in the place of
/// each character other than an ASCII letter, a digit or `_`; `pin` where nothing is left; at most 256 characters; and
/// where an earlier pin has the name, the first of `name_2`, `name_3` and so on that none has. So names differ, and
/// each has 1 to 290 characters, all of them ASCII letters, digits and `_`.
pub fn pin_names(alloc: Global, labels: &[Text]) -> Result<Items<Text>, AllocError>
    ensures named { IfOk result (λ names. AreNames [] labels.now names) }
    ensures spelled { IfOk result (λ names. All (λ name. IsTrue (is_pin_name name)) names) }
    ensures differ { IfOk result (λ names. IsDistinct bytes_eq names) }
{
    let mut names = Items::new(alloc);
    let mut next = BTreeMap::new(alloc);
    for label in labels {
        let name = name_of_label(alloc, label.as_str())?;
        let free = free_name(alloc, names.as_slice(), &mut next, name)?;
        names.push(free)?;
    }
    Ok(names)
}

/// The name that a label gives where no other pin has it; a circuit's name is changed in the same way.
pub fn name_of_label(alloc: Global, label: &str) -> Result<Text, AllocError>
    ensures { IfOk result (λ name. name ≡ name_of_label label.now) }
{
    let mut name = cleaned(alloc, trimmed(label.as_bytes()))?;
    name.truncate(LONGEST_NAME);
    if name.is_empty() {
        return Text::copy_of(alloc, "pin");
    }
    Ok(Text::from_ascii(name))
}

fn trimmed(label: &[u8]) -> &[u8]
    ensures { result.now ≡ trimmed label.now }
{
    without_end_spaces(without_spaces(label))
}

fn without_spaces(label: &[u8]) -> &[u8]
    ensures { result.now ≡ without_spaces label.now }
{
    let mut rest = label;
    while let [b' ', after @ ..] = rest {
        rest = after;
    }
    rest
}

fn without_end_spaces(label: &[u8]) -> &[u8]
    ensures { result.now ≡ reverse (without_spaces (reverse label.now)) }
{
    let mut rest = label;
    while let [before @ .., b' '] = rest {
        rest = before;
    }
    rest
}

fn cleaned(alloc: Global, label: &[u8]) -> Result<Vec<u8>, AllocError>
    ensures value { IfOk result (λ name. name.items ≡ flat_map cleaned_byte label.now) }
    ensures ascii { IfOk result (λ name. IsAscii name.items) }
{
    let mut name = Vec::new(alloc);
    for byte in label {
        if is_name_byte(*byte) {
            name.push(*byte)?;
        } else if !is_continuation(*byte) {
            name.push(b'_')?;
        }
    }
    Ok(name)
}

fn is_name_byte(byte: u8) -> bool
    ensures { result ≡ is_name_byte byte }
{
    byte.is_ascii_alphanumeric() || byte == b'_'
}

// A byte that goes on with a character of UTF-8.
fn is_continuation(byte: u8) -> bool
    ensures { result ≡ is_continuation byte }
{
    128 <= byte && byte <= 191
}

// The name itself, or the first numbered one that is free. For each taken name `next` has the next number to try.
fn free_name(
    alloc: Global,
    taken: &[Text],
    next: &mut BTreeMap<String, u64>,
    name: Text,
) -> Result<Text, AllocError>
    requires { KnowsTaken taken.now (λ q. get_by_text next.old q) }
    ensures free { IfOk result (λ found. IsFreeName taken.now name found) }
    ensures known { IfOk result (λ found. KnowsTaken (taken.now ++ found ∷ []) (λ q. get_by_text next.new q)) }
{
    match next.get(name.as_str()).copied() {
        Some(number) => next_name(alloc, taken, next, name, number),
        None => {
            next.insert(String::from_str(alloc, name.as_str())?, FIRST_NUMBER)?;
            Ok(name)
        }
    }
}

// The first numbered name that is free, where those before the number are known to be taken.
fn next_name(
    alloc: Global,
    taken: &[Text],
    next: &mut BTreeMap<String, u64>,
    name: Text,
    tried: u64,
) -> Result<Text, AllocError>
    requires known { KnowsTaken taken.now (λ q. get_by_text next.old q) }
    requires taken { is_taken taken.now name ≡ true }
    requires tried { IsTriedTo taken.now name tried }
    ensures free { IfOk result (λ found. IsFirstFree taken.now name found) }
    ensures known { IfOk result (λ found. KnowsTaken (taken.now ++ found ∷ []) (λ q. get_by_text next.new q)) }
{
    let number = first_free(alloc, taken, next, name.as_str(), tried)?;
    let found = numbered_name(alloc, name.as_str(), number)?;
    next.insert(String::from_str(alloc, found.as_str())?, FIRST_NUMBER)?;
    next.insert(name.into_string(), number + 1)?;
    Ok(found)
}

fn first_free(
    alloc: Global,
    taken: &[Text],
    next: &BTreeMap<String, u64>,
    name: &str,
    tried: u64,
) -> Result<u64, AllocError>
    requires known { KnowsTaken taken.now (λ q. get_by_text next.now q) }
    requires tried { IsTriedTo taken.now name.now tried }
    ensures { IfOk result (λ number. IsFirstFreeNumber taken.now name.now number) }
{
    for number in tried..taken.len() as u64 + 3 {
        let found = numbered_name(alloc, name, number)?;
        if !next.contains_key(found.as_str()) {
            return Ok(number);
        }
    }
    unreachable!()
}

fn numbered_name(alloc: Global, name: &str, number: u64) -> Result<Text, AllocError>
    ensures { IfOk result (λ found. found ≡ numbered_name name.now number) }
{
    Ok(Text::from_string(format!(in alloc; "{name}_{number}")?))
}
