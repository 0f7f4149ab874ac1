//! The texts of cells, and the lines that say why a walk ended or why a command prints nothing else.
#![tactic(auto)]

mod error_line;
mod number;
mod optional;
mod stop;
mod text;
mod types;
mod value;

pub use error_line::{
    append_missing, append_no_space, append_no_symbol, append_no_task, missing_line,
};
pub use number::append_number;
pub use optional::{append_optional_address, append_optional_number, append_optional_text};
pub use stop::{append_stop_line, stop_line};
pub use text::{append_quoted, append_text, text_cell};
pub use types::{append_type, type_cell};
pub use value::{append_value, value_cell};
