// What a walk downhill goes by: the level of each node, the place in its row where the search for a step down goes on, and the
// steps so far. That it fits a network is a clause: a second copy of the network in here would have to be said to be the same one.
use buffers::places::Places;
use index::step::Step;

#[derive(Drop)]
pub struct Descent<'a, 'd> {
    pub distance: &'d [u16],
    pub cursor: &'a mut [u16],
    pub walk: Places<'a, Step>,
}
