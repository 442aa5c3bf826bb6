//! Names and values in lists, as the attributes of an element and of a component, and the libraries of a project.

ghost use Rattle.std.specs.Prelude.{◌≡◌, ℕ, List, IfOk};
ghost use Rattle.std.specs.List.{list_all, list_any};
ghost use Rattle.std.specs.Option.{option_copied};
ghost use Rattle.std.specs.Str.{bytes_eq};
ghost use Rattle.lg_attrs.specs.Pairs.{value_under, names_differ, has_only, texts};

use lg_text::Text;
use std::alloc::{AllocError, Global};
use std::collections::BTreeSet;

/// The first value under a name.
pub fn value_under<'a>(name: &str, pairs: &'a [(Text, Text)]) -> Option<&'a Text>
    ensures { option_copied result ≡ value_under name.now pairs.now }
{
    for (other, value) in pairs {
        if other.as_str() == name {
            return Some(value);
        }
    }
    None
}

/// Whether the pairs have these names alone, each at most once. In time linear in the pairs where the names are few.
pub fn has_only(names: &[&str], pairs: &[(Text, Text)]) -> bool
    ensures { result ≡ has_only (texts names.now) pairs.now }
{
    are_among(names, pairs) && few_differ(pairs)
}

/// How many names are compared each with each.
const FEW: usize = 16;

/// Whether no name stands twice. Many names are put in order, so that each is compared with few others.
pub fn names_differ(alloc: Global, pairs: &[(Text, Text)]) -> Result<bool, AllocError>
    ensures { IfOk result (λ differ. differ ≡ names_differ pairs.now) }
{
    if pairs.len() <= FEW {
        Ok(few_differ(pairs))
    } else {
        many_differ(alloc, pairs)
    }
}

fn many_differ(alloc: Global, pairs: &[(Text, Text)]) -> Result<bool, AllocError>
    ensures { IfOk result (λ differ. differ ≡ names_differ pairs.now) }
{
    let mut names = BTreeSet::new(alloc);
    for (name, _) in pairs {
        if !names.insert(name.as_str())? {
            return Ok(false);
        }
    }
    Ok(true)
}

fn few_differ(pairs: &[(Text, Text)]) -> bool
    ensures { result ≡ names_differ pairs.now }
{
    for (at, (name, _)) in pairs.iter().enumerate() {
        if has_name(name.as_str(), &pairs[at + 1..]) {
            return false;
        }
    }
    true
}

fn has_name(name: &str, pairs: &[(Text, Text)]) -> bool
    ensures { result ≡ list_any (λ (b : List ℕ × List ℕ). bytes_eq name.now b.0) pairs.now }
{
    pairs.iter().any(|(other, _)| name == other.as_str())
}

fn are_among(names: &[&str], pairs: &[(Text, Text)]) -> bool
    ensures { result ≡ list_all (λ (s : List ℕ × List ℕ). list_any (bytes_eq s.0) (texts names.now)) pairs.now }
{
    pairs.iter().all(|(name, _)| is_among(name.as_str(), names))
}

/// Whether a text is one of these.
pub fn is_among(name: &str, names: &[&str]) -> bool
    ensures { result ≡ list_any (bytes_eq name.now) (texts names.now) }
{
    for other in names {
        if name == *other {
            return true;
        }
    }
    false
}
