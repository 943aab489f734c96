use gl_box::Cell;
use std::collections::LinkedList;

// What a hand knows of its deque: whose it is and of how many workers, the cells that it put and
// took, the cells that it gathered from passes which were settled, and the workers that those
// passes served. No value of it is made.
pub struct HandView {
    pub owner: u32,
    pub workers: u32,
    pub put: LinkedList<Cell>,
    pub taken: LinkedList<Cell>,
    pub gathered: LinkedList<Cell>,
    pub settled: LinkedList<u32>,
}

// What a pass knows of its deque: the cells that it took, and the workers that it serves. No value
// of it is made.
pub struct PassView {
    pub taken: LinkedList<Cell>,
    pub serves: LinkedList<u32>,
}

// What one thread's end of a deque knows. No value of it is made.
pub enum View {
    OfHand(HandView),
    OfPass(PassView),
}
