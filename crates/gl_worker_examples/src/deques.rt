ghost use Rattle.std.specs.Prelude.{◌≡◌, IfOk, IfSome};
ghost use Rattle.gl_deal.specs.Tokens.{hand_deque, pass_deque};

use gl_box::{Cell, Tuple};
use gl_deal::{Hand, Pass, Steal, deal};
use std::alloc::{AllocError, Global};
use std::sync::atomic::{AtomicBool, Ordering};
use std::test::Fail;
use std::thread;
use std::thread::Threads;

/// How many times a steal is tried again at most.
const TRIES: u32 = 1_000;

/// How many cells cross a deque between two threads.
const CELLS: u32 = 1_000_000;

/// How many turns the owner waits for the thief at most.
const TURNS: u32 = 100_000_000;

/// The cell of a single tuple of one axis.
fn single(place: u32) -> Cell {
    let mut tuple = Tuple::first(1);
    tuple.choose(0, place);
    Cell::point(&tuple)
}

/// The hand of the first of two workers, and the second one's pass to its deque.
fn two_ends(alloc: Global) -> Result<Option<(Hand, Pass)>, AllocError>
    ensures { IfOk result
        (λ ends. IfSome ends (λ both. pass_deque both.1 ≡ hand_deque both.0)) }
{
    let mut places = deal(alloc, 2)?;
    let Some(mut second) = places.pop() else {
        return Ok(None);
    };
    let Some(first) = places.pop() else {
        return Ok(None);
    };
    let Some(pass) = second.passes.pop() else {
        return Ok(None);
    };
    Ok(Some((first.hand, pass)))
}

/// Steals until there is an answer, or the tries are over.
fn steal(pass: &mut Pass) -> Option<Cell>
    ensures { pass_deque pass.new ≡ pass_deque pass.old }
{
    for _ in 0..TRIES {
        match pass.steal() {
            Steal::Got(cell) => return Some(cell),
            Steal::Empty => return None,
            Steal::Retry => {}
        }
    }
    None
}

#[test]
fn newest_is_taken_and_oldest_is_stolen(rt: HostRuntime) -> Result<(), Fail> {
    let (mut hand, mut pass) = two_ends(rt.alloc())?.ok_or("two places")?;
    assert_eq!(rt; hand.put(single(7)), Ok(()));
    assert_eq!(rt; hand.put(single(8)), Ok(()));
    assert_eq!(rt; hand.take(), Some(single(8)));
    assert_eq!(rt; steal(&mut pass), Some(single(7)));
    hand.settle(pass);
    assert_eq!(rt; hand.take(), None);
    Ok(())
}

/// What the two threads tell each other.
#[derive(Drop)]
struct Flags {
    thief_is_there: AtomicBool,
    owner_is_done: AtomicBool,
}

/// Waits for the thief, puts all cells, takes one after every third, and then takes what is left.
fn own(mut hand: Hand, flags: &Flags, taken: &mut Vec<u32>) -> Result<(), AllocError> {
    for _ in 0..TURNS {
        if flags.thief_is_there.load(Ordering::SeqCst) {
            break;
        }
    }
    for place in 0..CELLS {
        if let Err(back) = hand.put(single(place)) {
            taken.push(back.spans[0].lo)?;
        }
        if place % 3 == 0
            && let Some(cell) = hand.take()
        {
            taken.push(cell.spans[0].lo)?;
        }
    }
    for _ in 0..CELLS {
        match hand.take() {
            Some(cell) => taken.push(cell.spans[0].lo)?,
            None => return Ok(()),
        }
    }
    Ok(())
}

/// Steals until the owner is done and nothing is left.
fn rob(mut pass: Pass, flags: &Flags, taken: &mut Vec<u32>) -> Result<(), AllocError> {
    flags.thief_is_there.store(true, Ordering::SeqCst);
    for _ in 0..u64::MAX {
        let last = flags.owner_is_done.load(Ordering::SeqCst);
        match pass.steal() {
            Steal::Got(cell) => taken.push(cell.spans[0].lo)?,
            Steal::Empty if last => return Ok(()),
            _ => {}
        }
    }
    Ok(())
}

/// What the owner and the thief of a deque took, each in its own thread.
fn race<R: Threads + Sync>(
    rt: &R,
    alloc: Global,
    hand: Hand,
    pass: Pass,
) -> Result<(Vec<u32>, Vec<u32>), AllocError> {
    let both = Flags {
        thief_is_there: AtomicBool::new(false),
        owner_is_done: AtomicBool::new(false),
    };
    let flags = &both;
    let mut own_cells = Vec::new(alloc);
    let mut stolen = Vec::new(alloc);
    let (owned, robbed) = thread::join(
        rt,
        || {
            let owned = own(hand, flags, &mut own_cells);
            flags.owner_is_done.store(true, Ordering::SeqCst);
            owned
        },
        || rob(pass, flags, &mut stolen),
    );
    owned?;
    robbed?;
    Ok((own_cells, stolen))
}

#[test]
fn each_cell_is_taken_once(rt: HostRuntime) -> Result<(), Fail> {
    let (hand, pass) = two_ends(rt.alloc())?.ok_or("two places")?;
    let (owned, stolen) = race(&rt, rt.alloc(), hand, pass)?;
    let mut seen = vec![in rt.alloc(); false; CELLS as usize]?;
    for place in owned.iter().chain(stolen.iter()) {
        let was = seen.get_mut(*place as usize).ok_or("no such cell")?;
        assert!(rt; !*was, "{place} was taken twice");
        *was = true;
    }
    assert_eq!(rt; owned.len() + stolen.len(), CELLS as usize);
    Ok(())
}
