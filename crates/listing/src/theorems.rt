// A theorem on listings. Nothing here is run: the function's contract is the theorem, and its check is the proof.
ghost use Rattle.listing.specs.Shows.{SameMeaningSameListing};

// Listings of networks of the same meaning, with the same labels, are the same bytes; as those under the same entries.
pub fn same_meaning_same_listing()
    ensures { SameMeaningSameListing }
{}
