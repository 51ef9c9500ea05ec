// Marks on the nodes of a search, in bytes that the caller lends: blank when the search begins, and blank again whichever way it ends.
ghost use Rattle.std.specs.Prelude.{◌≡◌, ◌+◌, ◌≤◌, min, true, length, drop, if◌then◌else◌, nat_lt, slice_set};
ghost use Rattle.buffers.specs.Marks.{marked, blank, blanks, cleared};

pub struct Marks<'a> {
    bytes: &'a mut [u8],
    count: usize,
    ghost fits: { count ≤ length bytes.now },
}

// Writes 0 over the first `count` bytes.
fn clear(bytes: &mut [u8], count: usize)
    requires { count ≤ length bytes.old }
    ensures { bytes.new ≡ cleared bytes.old count }
{
    bytes[..count].fill(0);
}

impl<'a> Marks<'a> {
    // Blank marks in the first `count` bytes, or in all of them where there are fewer.
    pub fn new(bytes: &'a mut [u8], count: usize) -> Marks<'a>
        ensures count { result.count ≡ min count (length bytes.old) }
        ensures lent { result.bytes.ghost_name ≡ bytes.entry.ghost_name }
        ensures written { result.bytes.now ≡ cleared bytes.old result.count }
        ensures beyond { drop result.count result.bytes.now ≡ drop result.count bytes.old }
    {
        let held = count.min(bytes.len());
        clear(bytes, held);
        Marks { bytes, count: held }
    }

    pub fn is_marked(&self, node: usize) -> bool
        ensures { result ≡ marked self.now.bytes.now self.now.count node }
    {
        self.bytes[..self.count]
            .get(node)
            .is_some_and(|byte| *byte != 0)
    }

    // Marks the node, and says whether it was blank; changes nothing from `count` up.
    pub fn mark(&mut self, node: usize) -> bool
        ensures lent { self.new.bytes.ghost_name ≡ self.old.bytes.ghost_name }
        ensures count { self.new.count ≡ self.old.count }
        ensures written { self.new.bytes.now ≡ (if nat_lt node self.old.count then slice_set self.old.bytes.now node 1 else self.old.bytes.now) }
        ensures beyond { drop self.old.count self.new.bytes.now ≡ drop self.old.count self.old.bytes.now }
        ensures fresh { result ≡ blank self.old.bytes.now self.old.count node }
        ensures fewer { blanks self.new.bytes.now self.old.count + (if result then 1 else 0) ≡ blanks self.old.bytes.now self.old.count }
    {
        if node < self.count {
            let fresh = self.bytes[node] == 0;
            self.bytes[node] = 1;
            fresh
        } else {
            false
        }
    }
}

impl Drop for Marks<'_> {
    fn drop(self)
        ensures { self.exit.0.now ≡ cleared self.entry.bytes.now self.entry.count }
    {
        let Marks { bytes, count } = self;
        clear(bytes, count);
    }
}

#[cfg(test)]
mod tests {
    use super::*;

    // A search that ends in two ways: its lender knows that the marks are blank after either.
    fn seek(bytes: &mut [u8], count: usize, sought: usize) -> bool
        requires { count ≤ length bytes.old }
        ensures { bytes.new ≡ cleared bytes.old count }
    {
        let mut marks = Marks::new(bytes, count);
        marks.mark(1);
        if marks.is_marked(sought) {
            return true;
        }
        marks.mark(2);
        false
    }

    #[test]
    fn marks_are_blank_after_a_search(rt: HostRuntime) {
        let mut bytes = [9, 9, 9, 9];
        assert!(rt; seek(&mut bytes, 3, 1));
        assert_eq!(rt; bytes, [0, 0, 0, 9]);
        assert!(rt; !seek(&mut bytes, 3, 2));
        assert_eq!(rt; bytes, [0, 0, 0, 9]);
    }

    #[test]
    fn a_node_is_fresh_once(rt: HostRuntime) {
        let mut bytes = [9, 9];
        let mut marks = Marks::new(&mut bytes, 5);
        assert!(rt; !marks.is_marked(1));
        assert!(rt; marks.mark(1));
        assert!(rt; !marks.mark(1));
        assert!(rt; marks.is_marked(1));
        assert!(rt; !marks.mark(2));
    }
}
