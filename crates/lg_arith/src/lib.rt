//! Arithmetic on words of 1 to 64 bits, as the parts of Logisim-evolution's arithmetic library do it.
#![tactic(auto)]

mod count;
mod extender;
mod extension;
mod law;
mod operand;
mod order;
mod product;
mod quotient;
mod shifter;
mod sum;

pub use crate::count::{count_ones, least_width};
pub use crate::extender::extend;
pub use crate::extension::Extend;
pub use crate::law::{
    defined_in_defined_out, least_width_is_least, one_order_holds, outputs_make_the_whole,
    shifts_are_numbers, sub_undoes_add,
};
pub use crate::order::compare;
pub use crate::product::mul;
pub use crate::quotient::div;
pub use crate::shifter::{ShiftKind, shift};
pub use crate::sum::{add, negate, sub};
