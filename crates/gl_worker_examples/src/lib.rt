//! What several workers do in threads: they meet at a gate, share a best word, steal cells from each
//! other's deques and hear of totals. What they find is proved; that they do it side by side can
//! only be tried.
//! They are tests alone.
#![tactic(auto)]

#[cfg(test)]
mod best_word;
#[cfg(test)]
mod day;
#[cfg(test)]
mod deques;
#[cfg(test)]
mod flight;
#[cfg(test)]
mod heard;
#[cfg(test)]
mod roll;
#[cfg(test)]
mod search_by_many;
#[cfg(test)]
mod staged;
#[cfg(test)]
mod stolen;
#[cfg(test)]
mod watch;
