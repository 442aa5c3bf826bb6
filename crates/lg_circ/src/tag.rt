//! Tags and their attributes, and what stands between the characters of a text.

ghost use Rattle.std.specs.Prelude.{◌≡◌, suc, length};
ghost use Rattle.lg_circ.specs.Reading.{Gives, name_at, value_at, quoted_at, attribute_at, attributes_at, tag_at, first_at, last_at, token_at, name_said};
ghost use Rattle.lg_circ.specs.Seen.{view_tag, view_markup};

use crate::character::said;
use crate::class::{Class, begins_with, skip, split_after};
use crate::fault::CircFault;
use crate::mark::{after, after_comment, skip_gap, starts, strip};
use lg_attrs::names_differ;
use lg_text::Text;
use sqlite_items::Items;
use std::alloc::Global;

/// What an element's first tag says.
#[derive(Drop)]
pub struct Tag<'a> {
    pub name: &'a str,
    pub attributes: Items<(Text, Text)>,
}

/// What stands between characters.
#[derive(Drop)]
pub enum Markup<'a> {
    /// A comment.
    Nothing,
    /// An element with nothing inside.
    Stands(Tag<'a>),
    /// The first tag of an element.
    Starts(Tag<'a>),
    /// The last tag of an element of this name.
    Ends(&'a str),
}

impl<'a> Markup<'a> {
    /// The name that a tag says, and nothing of a comment.
    pub fn name(&self) -> &str
        ensures { result.now ≡ name_said (view_markup self.now) }
    {
        match self {
            Markup::Nothing => "",
            Markup::Stands(tag) => tag.name,
            Markup::Starts(tag) => tag.name,
            Markup::Ends(name) => name,
        }
    }
}

/// The markup that stands in front, and what follows it.
#[tactic(auto, unfolding(crate::specs::Reading::token_at))]
pub fn between(alloc: Global, text: &str) -> Result<(Markup<'_>, &str), CircFault>
    ensures { Gives (λ x. (view_markup x.0, x.1.now)) result (token_at text.now) }
{
    if starts(text, "<!--") {
        let rest = after_comment(text).ok_or(CircFault::NotProject)?;
        return Ok((Markup::Nothing, rest));
    }
    if starts(text, "</") {
        let start = strip(text, "</")?;
        return last(start);
    }
    first(alloc, text)
}

/// An element with nothing inside, or the first tag of an element.
#[tactic(auto, unfolding(crate::specs::Reading::first_at))]
pub fn first(alloc: Global, text: &str) -> Result<(Markup<'_>, &str), CircFault>
    ensures { Gives (λ x. (view_markup x.0, x.1.now)) result (first_at text.now) }
{
    let (tag, end) = first_tag(alloc, text)?;
    match after(end, "/>") {
        Some(rest) => Ok((Markup::Stands(tag), rest)),
        None => {
            let rest = strip(end, ">")?;
            Ok((Markup::Starts(tag), rest))
        }
    }
}

#[tactic(auto, unfolding(crate::specs::Reading::last_at))]
fn last(text: &str) -> Result<(Markup<'_>, &str), CircFault>
    ensures { Gives (λ x. (view_markup x.0, x.1.now)) result (last_at text.now) }
{
    let (name, rest) = name(text)?;
    let rest = strip(skip(rest, Class::White), ">")?;
    Ok((Markup::Ends(name), rest))
}

#[tactic(auto, unfolding(crate::specs::Reading::tag_at))]
fn first_tag(alloc: Global, text: &str) -> Result<(Tag<'_>, &str), CircFault>
    ensures { Gives (λ x. view_tag x.0 x.1.now) result (tag_at text.now) }
{
    let start = strip(text, "<")?;
    let (name, rest) = name(start)?;
    let (attributes, rest) = attributes(alloc, rest)?;
    if names_differ(alloc, attributes.as_slice())? {
        Ok((Tag { name, attributes }, rest))
    } else {
        Err(CircFault::NotProject)
    }
}

fn attributes(alloc: Global, text: &str) -> Result<(Items<(Text, Text)>, &str), CircFault>
    ensures { Gives (λ x. (x.0, x.1.now)) result (attributes_at (suc (length text.now)) text.now) }
{
    let mut attributes = Items::new(alloc);
    let mut rest = text;
    'attributes: while !begins_with(skip(rest, Class::White), Class::TagEnd) {
        let (name, value, behind) = attribute(alloc, rest)?;
        attributes.push((Text::copy_of(alloc, name)?, value))?;
        rest = behind;
    }
    Ok((attributes, skip(rest, Class::White)))
}

#[tactic(auto, unfolding(crate::specs::Reading::attribute_at))]
fn attribute(alloc: Global, text: &str) -> Result<(&str, Text, &str), CircFault>
    ensures { Gives (λ x. ((x.0.now, x.1), x.2.now)) result (attribute_at text.now) }
{
    let start = skip_gap(text)?;
    let (name, rest) = name(start)?;
    let rest = strip(skip(rest, Class::White), "=")?;
    let (value, rest) = quoted(alloc, skip(rest, Class::White))?;
    Ok((name, value, rest))
}

#[tactic(auto, unfolding(crate::specs::Reading::quoted_at))]
fn quoted(alloc: Global, text: &str) -> Result<(Text, &str), CircFault>
    ensures { Gives (λ x. (x.0, x.1.now)) result (quoted_at text.now) }
{
    match after(text, "\"") {
        Some(inside) => double(alloc, inside),
        None => {
            let inside = strip(text, "'")?;
            single(alloc, inside)
        }
    }
}

#[tactic(auto, unfolding(crate::specs::Reading::value_at))]
fn double(alloc: Global, text: &str) -> Result<(Text, &str), CircFault>
    ensures { Gives (λ x. (x.0, x.1.now)) result (value_at 34 text.now) }
{
    let (raw, end) = split_after(text, Class::Double);
    let rest = strip(end, "\"")?;
    let said = said(alloc, raw)?;
    Ok((said, rest))
}

#[tactic(auto, unfolding(crate::specs::Reading::value_at))]
fn single(alloc: Global, text: &str) -> Result<(Text, &str), CircFault>
    ensures { Gives (λ x. (x.0, x.1.now)) result (value_at 39 text.now) }
{
    let (raw, end) = split_after(text, Class::Single);
    let rest = strip(end, "'")?;
    let said = said(alloc, raw)?;
    Ok((said, rest))
}

#[tactic(auto, unfolding(crate::specs::Reading::name_at))]
fn name(text: &str) -> Result<(&str, &str), CircFault>
    ensures { Gives (λ x. (x.0.now, x.1.now)) result (name_at text.now) }
{
    if begins_with(text, Class::NameStart) {
        Ok(split_after(text, Class::Name))
    } else {
        Err(CircFault::NotProject)
    }
}
