//! The kinds of components: the table of what each has, and the table of what replaces it.
#![tactic(auto)]

mod arithmetic;
mod attributes;
mod cells;
mod fault;
mod gates;
mod index;
mod io;
mod kind;
mod latest;
mod law;
mod memory;
mod names;
mod plexers;
mod port;
mod port_table;
mod record;
pub mod rows;
mod table;
mod table_file;
mod wiring;

pub use fault::PartFault;
pub use kind::{Kind, kind_name, kind_of};
pub use law::files_say_one_table;
pub use names::name_at;
pub use port::{Loose, Port, Side};
pub use port_table::PortTable;
pub use table::entry;
pub use table_file::read_port_table;
