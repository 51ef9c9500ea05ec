// What a line of a legend stands for.
#[derive(Clone, Copy, PartialEq, Eq, Debug)]
pub enum Role {
    // whether the part at this place is signed
    Standing(usize),
    // whether the part at the first place has the sign at the second
    Pair(usize, usize),
    // how often the sign at this place is used
    Count(usize),
    // something else, and every place from the number of lines up
    Other,
}
