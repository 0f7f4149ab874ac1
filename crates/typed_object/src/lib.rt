//! Typed objects in memory: a view is a place in a space and a type, and gives the numbers, texts and values that stand
//! there. It holds no bytes. A ground is what commands over a kernel stand on, and objects give the members of what is at
//! an address by the places that a table has for them; there an absent member is none and no error.
#![tactic(auto)]

mod constants;
mod decode;
mod fault;
mod form;
mod ground;
mod members;
mod needs;
mod read;
mod text;
mod types;
mod value;
mod view;

pub use fault::{ObjectFault, TextFault, ValueFault};
pub use ground::Ground;
pub use members::{Objects, absent_stop, offset_of};
pub use needs::{first_missing, member_of_type, needed_member, root_address, symbol_address};
pub use text::read_text;
pub use view::View;
