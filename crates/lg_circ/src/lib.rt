//! Project files: the grammar of their text, and what it says.
#![tactic(auto)]

mod character;
mod class;
mod element;
mod fault;
mod judge;
mod law;
mod mark;
mod meaning;
mod point;
mod project;
mod read;
mod tag;
mod tree;

pub use element::Element;
pub use fault::CircFault;
pub use law::{one_tree, texts_say_or_not};
pub use lg_attrs::{Attrs, value_under};
pub use project::{Comp, FARTHEST, GREATEST_LIMIT, Point, Project, Sheet, USUAL_LIMIT, Wire};
pub use read::{GREATEST_LENGTH, read_project};
