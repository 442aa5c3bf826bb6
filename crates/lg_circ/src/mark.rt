//! Marks in the text, comments, and what may stand before the first element.

ghost use Rattle.std.specs.Prelude.{◌≡◌, ◌↔◌, suc, length, is_some, IsTrue};
ghost use Rattle.lg_circ.specs.Grammar.{IsMisc};
ghost use Rattle.lg_circ.specs.Reading.{Gives, now_of, after_mark, after_first, after_comment, after_misc, after_gap, after_declaration, after_byte_mark, after_prolog};

use crate::class::{Class, begins_with, skip};
use crate::fault::CircFault;

/// Whether the mark stands in front.
pub fn starts(text: &str, mark: &str) -> bool
    ensures { result ≡ is_some (after_mark mark.now text.now) }
{
    text.strip_prefix(mark).is_some()
}

/// What follows the mark in front, if it stands there.
pub fn after<'a>(text: &'a str, mark: &str) -> Option<&'a str>
    ensures { now_of result ≡ after_mark mark.now text.now }
{
    text.strip_prefix(mark)
}

/// What follows the mark, which has to stand in front.
pub fn strip<'a>(text: &'a str, mark: &str) -> Result<&'a str, CircFault>
    ensures { Gives (λ x. x.now) result (after_mark mark.now text.now) }
{
    text.strip_prefix(mark).ok_or(CircFault::NotProject)
}

/// What follows white space, of which there has to be some.
pub fn skip_gap(text: &str) -> Result<&str, CircFault>
    ensures { Gives (λ x. x.now) result (after_gap text.now) }
{
    if begins_with(text, Class::White) {
        Ok(skip(text, Class::White))
    } else {
        Err(CircFault::NotProject)
    }
}

/// What follows the first place where the mark stands.
fn after_first<'a>(text: &'a str, mark: &str) -> Option<&'a str>
    ensures { now_of result ≡ after_first mark.now text.now }
{
    let (_, rest) = text.split_once(mark)?;
    Some(rest)
}

/// What follows a comment, if one stands in front.
#[tactic(auto, unfolding(crate::specs::Reading::after_comment))]
pub fn after_comment(text: &str) -> Option<&str>
    ensures { now_of result ≡ after_comment text.now }
{
    let start = after(text, "<!--")?;
    let end = after_first(start, "--")?;
    match after(end, ">") {
        Some(rest) => Some(rest),
        None => after(end, "->"),
    }
}

/// Whether there is nothing but white space and comments.
pub fn is_misc(text: &str) -> bool
    ensures { IsTrue result ↔ IsMisc text.now }
{
    skip_misc(text).is_empty()
}

/// What follows white space and comments.
fn skip_misc(text: &str) -> &str
    ensures { result.now ≡ after_misc (suc (length text.now)) text.now }
{
    let mut rest = text;
    'comments: loop {
        let here = skip(rest, Class::White);
        match after_comment(here) {
            Some(after) => rest = after,
            None => return here,
        }
    }
}

#[tactic(auto, unfolding(crate::specs::Reading::after_declaration))]
fn after_declaration(text: &str) -> Option<&str>
    ensures { now_of result ≡ after_declaration text.now }
{
    let start = after(text, "<?xml")?;
    if begins_with(start, Class::White) {
        after_first(start, "?>")
    } else {
        None
    }
}

/// Where the first element may begin: after a mark of the order of bytes, a declaration, white space and comments.
#[tactic(auto, unfolding(crate::specs::Reading::after_prolog))]
pub fn skip_prolog(text: &str) -> &str
    ensures { result.now ≡ after_prolog text.now }
{
    let start = skip_byte_mark(text);
    skip_misc(after_declaration(start).unwrap_or(start))
}

fn skip_byte_mark(text: &str) -> &str
    ensures { result.now ≡ after_byte_mark text.now }
{
    text.strip_prefix("\u{feff}").unwrap_or(text)
}
