//! Whether a text spells a tree of any number of levels.

ghost use Rattle.std.specs.Prelude.{◌≡◌, []};
ghost use Rattle.lg_circ.specs.declared.element.Element.{Element};
ghost use Rattle.lg_circ.specs.Grammar.{SpellsText};
ghost use Rattle.lg_circ.specs.Tree.{name_of};
ghost use Rattle.lg_circ.specs.Reading.{Gives, names_at, names_after, ends, whole};
ghost use Rattle.lg_circ.specs.Seen.{view_names};
ghost use Rattle.lg_circ.specs.Grown.{Completes, Stands, Judges};

use crate::fault::CircFault;
use crate::mark::is_misc;
use crate::tag::Markup;
use crate::tree::{event, root};
use std::alloc::Global;

/// Whether there is a tree that the text spells. None is built: only the names of the open elements are kept.
pub fn judge(alloc: Global, text: &str) -> Result<(), CircFault>
    ensures { Judges (λ root. SpellsText root text.now) result }
{
    let (root, rest) = root(alloc, text)?;
    match root {
        Markup::Stands(_) => end(rest),
        Markup::Starts(tag) => follow(alloc, tag.name, rest),
        Markup::Nothing => Err(CircFault::NotProject),
        Markup::Ends(_) => Err(CircFault::NotProject),
    }
}

fn end(rest: &str) -> Result<(), CircFault>
    ensures { (e : Element) → Judges (Stands (whole e) rest.now) result }
{
    if is_misc(rest) {
        Ok(())
    } else {
        Err(CircFault::NotProject)
    }
}

fn follow(alloc: Global, name: &str, inside: &str) -> Result<(), CircFault>
    ensures { (top : Element) → name_of top ≡ name.now → Judges (Completes top [] inside.now) result }
{
    let mut names = Vec::new(alloc);
    names.push(name)?;
    let mut rest = inside;
    'steps: while !names.is_empty() {
        rest = next(alloc, &mut names, rest)?;
    }
    end(rest)
}

#[tactic(auto, unfolding(crate::specs::Reading::names_at))]
fn next<'a>(alloc: Global, names: &mut Vec<&'a str>, rest: &'a str) -> Result<&'a str, CircFault>
    ensures { Gives (λ x. (view_names names.new.items, x.now)) result (names_at (view_names names.old.items) rest.now) }
{
    let (_, found, after) = event(alloc, rest)?;
    match found {
        Markup::Nothing => {}
        Markup::Stands(_) => {}
        Markup::Starts(tag) => names.push(tag.name)?,
        Markup::Ends(name) => close(names, name)?,
    }
    Ok(after)
}

fn close(names: &mut Vec<&str>, name: &str) -> Result<(), CircFault>
    ensures { Gives (λ _. view_names names.new.items) result (names_after (view_names names.old.items) (ends name.now)) }
{
    match names.pop() {
        None => Err(CircFault::NotProject),
        Some(last) => {
            if name == last {
                Ok(())
            } else {
                Err(CircFault::NotProject)
            }
        }
    }
}
