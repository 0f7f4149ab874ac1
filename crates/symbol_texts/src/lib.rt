//! What is printed of a symbol file: layouts, symbols, and why it is refused.
#![tactic(auto)]

mod layout;
mod refusal;
mod symbols;

pub use layout::layout_text;
pub use refusal::symbols_refusal_text;
pub use symbols::{near_text, symbol_text};
