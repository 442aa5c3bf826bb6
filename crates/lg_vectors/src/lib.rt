//! Test vectors and rows: columns of values, read from text, bound to pins and compared with words.
#![tactic(auto)]

mod binding;
mod cared;
mod column;
mod digits;
mod draft;
mod fault;
mod heading;
mod law;
mod line;
mod pin;
mod read;
mod row;
mod value;
mod vector;

pub use crate::binding::{bind, bind_rows};
pub use crate::cared::{Cared, passes};
pub use crate::column::Column;
pub use crate::fault::VectorFault;
pub use crate::law::{columns_are_bound_or_not, texts_are_vectors_or_not};
pub use crate::pin::PinShape;
pub use crate::read::read_vector;
pub use crate::vector::{MOST_ROWS, Vector};
