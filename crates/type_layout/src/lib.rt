//! Sizes of types, and places of their members and elements, as the table of a symbol file gives them. The calls take no
//! memory.
#![tactic(auto)]

mod elements;
mod fault;
mod found;
mod members;
mod path;
mod place;
mod size;

pub use elements::element;
pub use fault::TypeFault;
pub use members::{member, member_named};
pub use path::{PathRefusal, resolve};
pub use place::Place;
pub use size::size_of;
