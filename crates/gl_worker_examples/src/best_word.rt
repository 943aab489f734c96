ghost use Rattle.std.specs.Prelude.{◌≡◌, ◌<◌, ◌≤◌, ◌+◌, All, IfOk, length};
ghost use Rattle.gl_best.specs.Seats.{IsSeatOf, view_of};

use gl_best::{BestWord, Seat};
use std::alloc::{AllocError, Global};
use std::test::Fail;
use std::thread::{self, Threads};

/// How many threads raise the word at once.
const THREADS: u32 = 16;

/// How many totals each of them raises.
const TOTALS: u64 = 100_000;

/// Seats for so many threads.
fn seats_for(
    alloc: Global,
    word: &BestWord,
    first: &mut Seat,
    count: u32,
) -> Result<Vec<Seat>, AllocError>
    requires seat { IsSeatOf word.now first.old }
    requires numbers { count + 1 ≤ length (view_of first.old).numbers }
    ensures seats { IfOk result (λ seats. All (IsSeatOf word.now) seats.items) }
    ensures first { IsSeatOf word.now first.new }
{
    let mut seats = Vec::new(alloc);
    for _ in 0..count {
        seats.push(word.share(first))?;
    }
    Ok(seats)
}

/// Raises every second total up to a number: the thread with an even number the even ones.
fn raise_many(word: &BestWord, seat: &mut Seat, thread: usize)
    requires { IsSeatOf word.now seat.old }
{
    let odd = thread as u64 % 2;
    for total in 0..TOTALS {
        word.raise(seat, 2 * total + odd);
    }
}

fn raise_side_by_side<R: Threads + Sync>(rt: &R, word: &BestWord, seats: &mut [Seat])
    requires { All (IsSeatOf word.now) seats.old }
{
    thread::for_each_mut(
        rt,
        seats,
        THREADS as usize,
        &|thread, seat| { raise_many(word, seat, thread) },
    );
}

#[test]
fn threads_that_raise_at_once_leave_the_greatest(rt: HostRuntime) -> Result<(), Fail> {
    let (word, mut first) = BestWord::new(rt.alloc())?;
    let mut seats = seats_for(rt.alloc(), &word, &mut first, THREADS - 1)?;
    raise_side_by_side(&rt, &word, seats.as_mut_slice());
    assert_eq!(rt; word.look(&mut first), Some(2 * TOTALS - 1));
    Ok(())
}
