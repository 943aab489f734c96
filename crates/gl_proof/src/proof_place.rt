/// Where a reader of a proof stands, by the line before it.
#[derive(Clone, Copy, Debug, PartialEq, Eq)]
pub enum ProofPlace {
    /// At the beginning: the heading comes.
    Start,
    /// After the heading: a claim or the end comes.
    Headed,
    /// After the line of a claim that has a total: its fixes come.
    Claimed,
    /// After another line of a claim: one of its boxes, the next claim or the end comes.
    Within,
    /// After the end: nothing comes.
    Ended,
}
