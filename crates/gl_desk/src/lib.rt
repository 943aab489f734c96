//! The outside of the product: a folder of files and a place to print, as a trait with contracts.
#![tactic(auto)]

mod calls;
pub mod desk;
pub mod error;
pub mod host;
mod listing;
mod made_file;
pub mod mem;
mod mem_file;
pub mod name;
mod piece_limit;
pub mod pouring;
pub mod read;
mod system;
pub mod taker;

pub use desk::Desk;
pub use error::{DeskError, ReadError};
pub use host::HostDesk;
pub use mem::MemDesk;
pub use name::Name;
pub use pouring::pour;
pub use read::{MOST_BYTES, read_all};
pub use taker::Taker;
