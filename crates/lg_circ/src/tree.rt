//! The tree of a text, grown with a stack of the elements that are open.

ghost use Rattle.std.specs.Prelude.{◌≡◌, ◌++◌, [], Some, IsTrue};
ghost use Rattle.lg_circ.specs.Reading.{Gives, event_at, with_text, with_child, bare, stands, starts, ends, whole, step_at, next_at, root_at};
ghost use Rattle.lg_circ.specs.Seen.{view_markup, around_of, view_step};
ghost use Rattle.lg_circ.specs.Grammar.{SpellsText};
ghost use Rattle.lg_circ.specs.Tree.{children_of, has_levels, greatest_level};
ghost use Rattle.lg_circ.specs.Grown.{Completes, Stands, Makes};

use crate::character::said;
use crate::class::{Class, split_after};
use crate::element::Element;
use crate::fault::CircFault;
use crate::mark::{is_misc, skip_prolog};
use crate::tag::{Markup, Tag, between, first};
use lg_text::Text;
use sqlite_items::Items;
use std::alloc::Global;

/// How many levels of elements are read.
pub const GREATEST_LEVEL: usize = 64;

/// The elements that are open.
#[derive(Drop)]
pub struct Open {
    /// The innermost.
    pub top: Element,
    /// Those around it, the outermost first.
    pub around: Items<Element>,
}

/// Where reading stands after a step.
#[derive(Drop)]
pub enum Step {
    /// Elements are open.
    On(Open),
    /// The root is whole.
    Whole(Element),
    /// There is a level too many.
    Deep,
}

/// The tree that the text spells. `TooDeep` says that each tree of the text has more than 64 levels, and not that there is one.
pub fn tree(alloc: Global, text: &str) -> Result<Element, CircFault>
    ensures { Makes (λ root. SpellsText root text.now) result }
{
    let (root, rest) = root(alloc, text)?;
    match root {
        Markup::Stands(tag) => end(element(alloc, tag)?, rest),
        Markup::Starts(tag) => grow(alloc, element(alloc, tag)?, rest),
        Markup::Nothing => Err(CircFault::NotProject),
        Markup::Ends(_) => Err(CircFault::NotProject),
    }
}

/// The first element of a text or its first tag, which is called `project`.
#[tactic(auto, unfolding(crate::specs::Reading::root_at))]
pub fn root(alloc: Global, text: &str) -> Result<(Markup<'_>, &str), CircFault>
    ensures { Gives (λ x. (view_markup x.0, x.1.now)) result (root_at text.now) }
{
    let (root, rest) = first(alloc, skip_prolog(text))?;
    if root.name() == "project" {
        Ok((root, rest))
    } else {
        Err(CircFault::NotProject)
    }
}

/// The root is the whole text, but for white space and comments behind it.
fn end(root: Element, rest: &str) -> Result<Element, CircFault>
    requires { IsTrue (has_levels greatest_level root) }
    ensures { Makes (Stands (whole root) rest.now) result }
{
    if is_misc(rest) {
        Ok(root)
    } else {
        Err(CircFault::NotProject)
    }
}

fn grow(alloc: Global, root: Element, inside: &str) -> Result<Element, CircFault>
    requires { children_of root ≡ [] }
    ensures { Makes (Completes root [] inside.now) result }
{
    let mut stack = Open {
        top: root,
        around: Items::new(alloc),
    };
    let mut rest = inside;
    'steps: loop {
        let (step, after) = next(alloc, stack, rest)?;
        match step {
            Step::On(more) => {
                stack = more;
                rest = after;
            }
            Step::Whole(root) => return end(root, after),
            Step::Deep => return Err(CircFault::TooDeep),
        }
    }
}

#[tactic(auto, unfolding(crate::specs::Reading::next_at))]
fn next<'a>(alloc: Global, stack: Open, rest: &'a str) -> Result<(Step, &'a str), CircFault>
    ensures { Gives (λ x. (view_step x.0, x.1.now)) result (next_at stack.top (around_of stack) rest.now) }
{
    let Open { top, around } = stack;
    let (text, found, after) = event(alloc, rest)?;
    let top = with_text(top, text)?;
    let step = take(alloc, Open { top, around }, found)?;
    Ok((step, after))
}

/// The characters in front, what stands behind them, and what follows it.
#[tactic(auto, unfolding(crate::specs::Reading::event_at))]
pub fn event(alloc: Global, text: &str) -> Result<(Text, Markup<'_>, &str), CircFault>
    ensures { Gives (λ x. (x.0, view_markup x.1, x.2.now)) result (event_at text.now) }
{
    let (raw, rest) = split_after(text, Class::Characters);
    let said = said(alloc, raw)?;
    let (found, after) = between(alloc, rest)?;
    Ok((said, found, after))
}

fn take(alloc: Global, stack: Open, found: Markup<'_>) -> Result<Step, CircFault>
    ensures { Gives view_step result (step_at stack.top (around_of stack) (view_markup found.entry)) }
{
    match found {
        Markup::Nothing => Ok(Step::On(stack)),
        Markup::Stands(tag) => stand(alloc, stack, tag),
        Markup::Starts(tag) => start(alloc, stack, tag),
        Markup::Ends(name) => close(stack, name),
    }
}

fn stand(alloc: Global, stack: Open, tag: Tag<'_>) -> Result<Step, CircFault>
    ensures { Gives view_step result (step_at stack.top (around_of stack) (stands tag.entry.name.now tag.entry.attributes)) }
{
    let Open { top, around } = stack;
    if around.len() + 1 >= GREATEST_LEVEL {
        return Ok(Step::Deep);
    }
    let child = element(alloc, tag)?;
    let top = with_child(top, child)?;
    Ok(Step::On(Open { top, around }))
}

fn start(alloc: Global, stack: Open, tag: Tag<'_>) -> Result<Step, CircFault>
    ensures { Gives view_step result (step_at stack.top (around_of stack) (starts tag.entry.name.now tag.entry.attributes)) }
{
    let Open { top, mut around } = stack;
    if around.len() + 1 >= GREATEST_LEVEL {
        return Ok(Step::Deep);
    }
    let inner = element(alloc, tag)?;
    around.push(top)?;
    Ok(Step::On(Open { top: inner, around }))
}

fn close(stack: Open, name: &str) -> Result<Step, CircFault>
    ensures { Gives view_step result (step_at stack.top (around_of stack) (ends name.now)) }
{
    let Open { top, mut around } = stack;
    if name != top.name.as_str() {
        return Err(CircFault::NotProject);
    }
    match around.pop() {
        None => Ok(Step::Whole(top)),
        Some(outer) => {
            let top = with_child(outer, top)?;
            Ok(Step::On(Open { top, around }))
        }
    }
}

/// An element with nothing inside.
fn element(alloc: Global, tag: Tag<'_>) -> Result<Element, CircFault>
    ensures { Gives (λ e. e) result (Some (bare tag.entry.name.now tag.entry.attributes)) }
{
    let Tag { name, attributes } = tag;
    let name = Text::copy_of(alloc, name)?;
    Ok(Element {
        name,
        attributes,
        text: Text::new(alloc),
        children: Items::new(alloc),
    })
}

fn with_text(element: Element, more: Text) -> Result<Element, CircFault>
    ensures { Gives (λ e. e) result (Some (with_text element more)) }
{
    let Element {
        name,
        attributes,
        text,
        children,
    } = element;
    let text = joined(text, more)?;
    Ok(Element {
        name,
        attributes,
        text,
        children,
    })
}

fn joined(mut text: Text, more: Text) -> Result<Text, CircFault>
    ensures { Gives (λ t. t) result (Some (text ++ more)) }
{
    if text.is_empty() {
        return Ok(more);
    }
    text.push_str(more.as_str())?;
    Ok(text)
}

fn with_child(element: Element, child: Element) -> Result<Element, CircFault>
    ensures { Gives (λ e. e) result (Some (with_child element child)) }
{
    let Element {
        name,
        attributes,
        text,
        mut children,
    } = element;
    children.push(child)?;
    Ok(Element {
        name,
        attributes,
        text,
        children,
    })
}
