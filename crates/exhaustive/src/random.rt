// A fixed pseudo-random sequence.
ghost use Rattle.std.specs.Prelude.{◌<◌, max};

#[derive(Clone, Copy)]
pub struct Random {
    state: u64,
}

impl Random {
    pub fn new(seed: u64) -> Random {
        Random { state: seed }
    }

    // The next number below a bound; below 0 there is 0 alone.
    pub fn below(&mut self, bound: usize) -> usize
        ensures { result < max 1 bound }
    {
        self.state = self
            .state
            .wrapping_mul(6364136223846793005)
            .wrapping_add(1442695040888963407);
        ((self.state >> 33) as usize)
            .checked_rem(bound)
            .unwrap_or(0)
    }
}
