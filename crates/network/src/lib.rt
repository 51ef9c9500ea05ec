// The interface that every network shows, and the one function by which code above it asks for a line.
#![tactic(auto)]

ghost use Rattle.std.specs.Prelude.{◌≡◌};
ghost use Rattle.std.specs.List.{slice_get};
ghost use Rattle.std.specs.Option.{option_map};
ghost use Rattle.network.specs.Net.{Net, Limits, size, told};

pub mod legend;
pub mod line_record;
pub mod role;

pub trait Network {
    // What the network means; no question changes it.
    ghost meaning: { Self → Net };

    // Every value of the type keeps the limits.
    ghost limits: { (x : Self) → Limits (meaning x) };

    fn nodes(&self) -> usize
        ensures { result ≡ (meaning self.now).nodes };

    fn lines(&self) -> usize
        ensures { result ≡ size (meaning self.now) };

    // Tail, head, least and most of the line at this place; none from the number of lines up.
    fn line(&self, place: usize) -> Option<(u16, u16, u16, u16)>
        ensures { result ≡ slice_get (meaning self.now).lines place };
}

// Tail, head, least and most of a line of any network. Code above the interface asks for a line by this function alone, so
// that a line may come to tell more without any of that code noticing.
pub fn ask<N: Network>(network: &N, place: usize) -> Option<(u16, u16, u16, u16)>
    ensures { result ≡ option_map told (slice_get (N.Network.meaning network.now).lines place) }
{
    let (tail, head, least, most) = network.line(place)?;
    Some((tail, head, least, most))
}
