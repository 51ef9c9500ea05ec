// The names of a job's parts and the texts of its signs.
ghost use Rattle.std.specs.Prelude.{◌≡◌, length};
ghost use Rattle.std.specs.List.{slice_get};
ghost use Rattle.std.specs.Option.{option_map};
ghost use Rattle.contents.specs.Labels.{Labelled, Small};

pub trait Labels {
    // The names and texts in order; no question changes them.
    ghost labelled: { Self → Labelled };

    // Every value of the type keeps the limits.
    ghost small: { (x : Self) → Small (labelled x) };

    fn parts(&self) -> usize
        ensures { result ≡ length (labelled self.now).names };

    fn signs(&self) -> usize
        ensures { result ≡ length (labelled self.now).texts };

    // The name of a part; none from the number of parts up.
    fn name(&self, part: usize) -> Option<&[u8]>
        ensures { option_map (λ x. x.now) result ≡ slice_get (labelled self.now).names part };

    // The text of a sign; none from the number of signs up.
    fn text(&self, sign: usize) -> Option<&[u8]>
        ensures { option_map (λ x. x.now) result ≡ slice_get (labelled self.now).texts sign };
}
