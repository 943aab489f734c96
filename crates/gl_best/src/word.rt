ghost use Rattle.std.specs.Prelude.{◌≡◌, ◌<◌, ◌≤◌, [], length};

use crate::rule::{Greatest, View};
use atomic_table::Table;
use std::alloc::Global;

/// The greatest total that was raised, in one word: 0 for none, else the total plus one.
#[derive(Drop)]
pub struct BestWord {
    pub(crate) table: Table<(), View, (), Greatest, Global>,
    ghost one_word: { table.shared.table_id.words ≡ 1 },
    ghost no_slot: { table.shared.table_id.slots ≡ 0 },
}

/// The right of one thread to step on a best word, and what it knows of it.
#[derive(Drop)]
pub struct Seat {
    pub(crate) seat: atomic_table::Seat<(), View>,
    ghost some_number: { 0 < length seat.me.0.numbers },
    pub ghost raised_was_seen: { seat.me.0.raised ≤ seat.me.0.seen },
    ghost holds_no_slot: { seat.me.1 ≡ [] },
}
