//! Lines of a text, numbers as decimal digits, the forms of names and numbers, and lists that
//! contracts see as their items.
#![tactic(auto)]

mod digits;
mod form;
mod items;
mod lines;
mod numbers;
mod space;

pub use digits::read_digits;
pub use form::{is_file_name, is_name, is_number, is_plain};
pub use items::Items;
pub use lines::{LineAt, next_ended_line, next_line};
pub use numbers::{push_fixed, push_u64, read_u64, write_digits};
pub use space::part_at_space;
