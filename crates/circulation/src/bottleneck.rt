// A set of nodes that must take in more than can leave it: the two sums.
#[derive(Clone, Copy, PartialEq, Eq, Debug)]
pub struct Bottleneck {
    pub demand: u32,
    pub supply: u32,
}
