ghost use Rattle.std.specs.Prelude.{◌≡◌, ◌+◌, ◌<◌, ◌≤◌, ◌^◌, IfOk, length, max};
ghost use Rattle.gl_best.specs.Rule.{first_view};
ghost use Rattle.gl_best.specs.Seats.{HasAll, IsSeatOf, total_of, view_of};
ghost use Rattle.gl_best.specs.Steps.{both_of, given_of, kept_of};

use crate::rule::{Looks, Numbers, Raises, View};
use crate::word::{BestWord, Seat};
use atomic_table::Table;
use std::alloc::{AllocError, Global};

/// The total that a word says.
fn total_in(word: u64) -> Option<u64>
    ensures { result ≡ total_of word }
{
    if word == 0 { None } else { Some(word - 1) }
}

impl BestWord {
    /// A word that nobody has raised, and its first seat, with all sixteen numbers. The only error
    /// is
    /// want of memory.
    pub fn new(alloc: Global) -> Result<(BestWord, Seat), AllocError>
        ensures seat { IfOk result (λ made. IsSeatOf made.0 made.1) }
        ensures view { IfOk result (λ made. view_of made.1 ≡ first_view) }
    {
        let (table, seat) = Table::of_words(alloc, &[0], &())?;
        Ok((BestWord { table }, Seat { seat }))
    }

    /// A new seat, for another thread: it has seen as much, and raised nothing. It gets the
    /// greatest
    /// number of this one.
    pub fn share(&self, seat: &mut Seat) -> Seat
        requires seat { IsSeatOf self.now seat.old }
        requires two { 2 ≤ length (view_of seat.old).numbers }
        ensures seats { IsSeatOf self.now seat.new × IsSeatOf self.now result }
        ensures kept { view_of seat.new ≡ kept_of (view_of seat.old) }
        ensures given { view_of result ≡ given_of (view_of seat.old) }
        ensures fewer { length (view_of seat.new).numbers + 1
            ≡ length (view_of seat.old).numbers }
    {
        Seat {
            seat: self.table.shared.split_seat::<Numbers>(&mut seat.seat),
        }
    }

    /// Reads the word: the greatest total that anybody raised, which is no less than what the seat
    /// had seen. `None` where nobody did.
    pub fn look(&self, seat: &mut Seat) -> Option<u64>
        requires seat { IsSeatOf self.now seat.old }
        ensures seat { IsSeatOf self.now seat.new }
        ensures seen { result ≡ total_of (view_of seat.new).seen }
        ensures no_less { (view_of seat.old).seen ≤ (view_of seat.new).seen }
        ensures raised { (view_of seat.new).raised ≡ (view_of seat.old).raised }
        ensures numbers { (view_of seat.new).numbers ≡ (view_of seat.old).numbers }
    {
        total_in(self.table.shared.load::<Looks>(&mut seat.seat, 0))
    }

    /// Raises the word to a total, in one step, unless it says as much already.
    pub fn raise(&self, seat: &mut Seat, total: u64)
        requires seat { IsSeatOf self.now seat.old }
        requires total { total + 1 < 2 ^ 64 }
        ensures seat { IsSeatOf self.now seat.new }
        ensures raised { (view_of seat.new).raised ≡ max (view_of seat.old).raised (total + 1) }
        ensures seen { total + 1 ≤ (view_of seat.new).seen }
        ensures no_less { (view_of seat.old).seen ≤ (view_of seat.new).seen }
        ensures numbers { (view_of seat.new).numbers ≡ (view_of seat.old).numbers }
    {
        self.table
            .shared
            .fetch_max::<Raises>(&mut seat.seat, 0, total + 1);
    }

    /// Takes another seat in: what it has seen and raised, and its numbers.
    pub fn gather(&self, seat: &mut Seat, other: Seat)
        requires seat { IsSeatOf self.now seat.old }
        requires other { IsSeatOf self.now other }
        ensures seat { IsSeatOf self.now seat.new }
        ensures both { view_of seat.new ≡ both_of (view_of seat.old) (view_of other) }
    {
        self.table
            .shared
            .join_seat::<Numbers>(&mut seat.seat, other.into_inner());
    }

    /// The greatest total that any seat raised, `None` exactly where none did: what the seat that
    /// has
    /// all numbers has raised. It has seen no more than that.
    pub fn close(self, seat: Seat) -> Option<u64>
        requires seat { IsSeatOf self seat }
        requires all { HasAll seat }
        ensures value { result ≡ total_of (view_of seat).raised }
        ensures seen { (view_of seat).seen ≤ (view_of seat).raised }
    {
        let BestWord { table } = self;
        let closed = table.close_with(seat.into_inner());
        let word = closed.word(0);
        closed.free();
        total_in(word)
    }
}

impl Seat {
    fn into_inner(self) -> atomic_table::Seat<(), View>
        ensures { result ≡ self.seat }
    {
        let Seat { seat } = self;
        seat
    }
}
