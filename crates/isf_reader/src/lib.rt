//! The symbol file of a kernel, in the intermediate symbol format (ISF) of Volatility 3: base types, enums, user types
//! and symbols, read from JSON as one table.
#![tactic(auto)]

mod base_type;
mod depth;
mod enum_type;
mod file;
mod json;
mod lookup;
mod refusal;
mod section;
mod symbol;
mod table;
mod type_of;
mod type_ref;
mod user_type;

pub use base_type::{BaseKind, BaseType};
pub use enum_type::{Constant, Constants, EnumType};
pub use refusal::{IsfRefusal, Key, Section};
pub use symbol::Symbol;
pub use table::Table;
pub use type_ref::TypeRef;
pub use user_type::{Field, Fields, UserKind, UserType};
