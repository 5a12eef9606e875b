// The steps outside a list by their distance from it, round by round, until one is linked to the list again. In the lent area stand,
// from a queue's start on, the nodes that were met, the list first; after n words a mark for each node that was met, and after n more its distance.
#![tactic(auto)]

use neighbours::Listing;
use stepmap::read::Sizes;

pub mod closing;
pub mod queue;
pub mod rounds;

// What a search goes by: a map's sizes, where in the area the queue of the nodes that were met starts, and where the links from step to step stand.
#[derive(Clone, Copy)]
pub struct Search {
    pub sizes: Sizes,
    pub start: usize,
    pub links: Listing,
}
