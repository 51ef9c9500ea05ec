// A job file. It is lent: names and texts are parts of it.

// What it holds is defined for every value; reading alone hands one out, and only of a file that was found right.
#[derive(Drop)]
pub struct JobFile<'a> {
    pub(crate) file: &'a [u8],
}
