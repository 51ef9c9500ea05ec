// Why nothing is listed.
ghost use Rattle.std.specs.Prelude.{◌≡◌};
ghost use Rattle.listing.specs.Listing.{listing_told, passed_on};

use sift::refusal::SiftRefusal;

#[derive(Clone, Copy, PartialEq, Eq, Debug)]
pub enum ListingRefusal {
    // a buffer is short
    Short,
    // legend and labels differ in the number of parts or signs
    Differ,
    // no lawful flow exists; demand and supply are those of the bottleneck shown
    NoFlow(u32, u32),
}

impl From<SiftRefusal> for ListingRefusal {
    ghost from_gives = { λ why r. r ≡ passed_on why };

    fn from(why: SiftRefusal) -> ListingRefusal {
        match why {
            SiftRefusal::Short => ListingRefusal::Short,
            SiftRefusal::NoFlow(demand, supply) => ListingRefusal::NoFlow(demand, supply),
        }
    }
}

impl ListingRefusal {
    pub fn number(self) -> u8
        ensures { result ≡ (listing_told self).0 }
    {
        match self {
            ListingRefusal::Short => 1,
            ListingRefusal::Differ => 19,
            ListingRefusal::NoFlow(_, _) => 20,
        }
    }
}
