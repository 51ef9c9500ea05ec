// What a search is lent: a mark and a place of the queue for each node. The marks are blank between searches.
ghost use Rattle.std.specs.Prelude.{◌≡◌, length, replicate};

#[derive(Drop)]
pub struct Lent<'a> {
    pub marks: &'a mut [u8],
    pub queue: &'a mut [u16],
    ghost blank: { marks.now ≡ replicate (length marks.now) 0 },
    ghost paired: { length queue.now ≡ length marks.now },
}

impl<'a> Lent<'a> {
    // The memory may hold anything; its marks are blanked.
    pub fn new(marks: &'a mut [u8], queue: &'a mut [u16]) -> Lent<'a>
        requires { length queue.old ≡ length marks.old }
        ensures lent { result.marks.ghost_name ≡ marks.entry.ghost_name }
        ensures nodes { length result.marks.now ≡ length marks.old }
    {
        marks.fill(0);
        Lent { marks, queue }
    }
}
