// A list over places that the caller lends. It holds as many elements as there are places, and never moves them.
ghost use Rattle.std.specs.Prelude.{◌≡◌, ◌+◌, ◌-◌, ◌<◌, ◌≤◌, true, length, is_ok, if◌then◌else◌, nat_lt, nat_le, slice_set};
ghost use Rattle.std.specs.List.{slice_get};
ghost use Rattle.buffers.specs.Places.{elements, last, extended};

// Refused: there are not enough places.
#[derive(Clone, Copy, PartialEq, Eq, Debug)]
pub struct Full;

impl Full {
    pub fn number(self) -> u8
        ensures { result ≡ 1 }
    {
        1
    }
}

#[derive(Drop)]
pub struct Places<'a, T: Copy> {
    cells: &'a mut [T],
    len: usize,
    ghost fits: { len ≤ length cells.now },
}

impl<'a, T: Copy> Places<'a, T> {
    // An empty list over the places; what they hold stays until it is overwritten.
    pub fn new(cells: &'a mut [T]) -> Places<'a, T>
        ensures empty { result.len ≡ 0 }
        ensures lent { result.cells.ghost_name ≡ cells.entry.ghost_name }
        ensures kept { result.cells.now ≡ cells.old }
    {
        Places { cells, len: 0 }
    }

    // The list of the first so many places, which hold its elements already.
    pub fn holding(cells: &'a mut [T], len: usize) -> Places<'a, T>
        requires { len ≤ length cells.old }
        ensures count { result.len ≡ len }
        ensures lent { result.cells.ghost_name ≡ cells.entry.ghost_name }
        ensures kept { result.cells.now ≡ cells.old }
    {
        Places { cells, len }
    }

    pub fn len(&self) -> usize
        ensures { result ≡ self.now.len }
    {
        self.len
    }

    // The elements, in order.
    pub fn elements(&self) -> &[T]
        ensures { result.now ≡ elements self.now.cells.now self.now.len }
    {
        &self.cells[..self.len]
    }

    // The element at this place; none from the length up.
    pub fn get(&self, place: usize) -> Option<T>
        ensures { result ≡ slice_get (elements self.now.cells.now self.now.len) place }
    {
        self.elements().get(place).copied()
    }

    // The last element; none in an empty list.
    pub fn top(&self) -> Option<T>
        ensures { result ≡ last self.now.cells.now self.now.len }
    {
        self.elements().last().copied()
    }

    // Adds an element at the end; refused where every place is in use, and then nothing changes.
    pub fn push(&mut self, x: T) -> Result<(), Full>
        ensures lent { self.new.cells.ghost_name ≡ self.old.cells.ghost_name }
        ensures room { is_ok result ≡ nat_lt self.old.len (length self.old.cells.now) }
        ensures count { self.new.len ≡ (if is_ok result then self.old.len + 1 else self.old.len) }
        ensures written { self.new.cells.now ≡ (if is_ok result then slice_set self.old.cells.now self.old.len x else self.old.cells.now) }
    {
        if self.len == self.cells.len() {
            return Err(Full);
        }
        self.cells[self.len] = x;
        self.len += 1;
        Ok(())
    }

    // Adds the elements of a slice at the end, all at once; refused where they have no room, and then nothing changes.
    pub fn extend_from_slice(&mut self, xs: &[T]) -> Result<(), Full>
        ensures lent { self.new.cells.ghost_name ≡ self.old.cells.ghost_name }
        ensures room { is_ok result ≡ nat_le (self.old.len + length xs.now) (length self.old.cells.now) }
        ensures count { self.new.len ≡ (if is_ok result then self.old.len + length xs.now else self.old.len) }
        ensures written { self.new.cells.now ≡ (if is_ok result then extended self.old.cells.now self.old.len xs.now else self.old.cells.now) }
    {
        if xs.len() > self.cells.len() - self.len {
            return Err(Full);
        }
        let end = self.len + xs.len();
        self.cells[self.len..end].copy_from_slice(xs);
        self.len = end;
        Ok(())
    }

    // Takes the last element off the list, and leaves its place as it is.
    pub fn pop(&mut self) -> Option<T>
        ensures lent { self.new.cells.ghost_name ≡ self.old.cells.ghost_name }
        ensures taken { result ≡ last self.old.cells.now self.old.len }
        ensures count { self.new.len ≡ self.old.len - 1 }
        ensures kept { self.new.cells.now ≡ self.old.cells.now }
    {
        let taken = self.top()?;
        self.len -= 1;
        Some(taken)
    }

    // Puts an element in the place of the last one, which it gives back; nothing changes in an empty list.
    pub fn replace_top(&mut self, x: T) -> Option<T>
        ensures lent { self.new.cells.ghost_name ≡ self.old.cells.ghost_name }
        ensures taken { result ≡ last self.old.cells.now self.old.len }
        ensures count { self.new.len ≡ self.old.len }
        ensures written { self.new.cells.now ≡ (if nat_lt 0 self.old.len then slice_set self.old.cells.now (self.old.len - 1) x else self.old.cells.now) }
    {
        let taken = self.top()?;
        self.cells[self.len - 1] = x;
        Some(taken)
    }

    // Empties the list, and leaves every place as it is.
    pub fn clear(&mut self)
        ensures lent { self.new.cells.ghost_name ≡ self.old.cells.ghost_name }
        ensures count { self.new.len ≡ 0 }
        ensures kept { self.new.cells.now ≡ self.old.cells.now }
    {
        self.len = 0;
    }
}

#[cfg(test)]
mod tests {
    use super::*;

    // Once the list has ended, its lender knows what every place holds.
    fn one_element(cells: &mut [u16])
        requires { 0 < length cells.old }
        ensures { cells.new ≡ slice_set cells.old 0 7 }
    {
        let mut list = Places::new(cells);
        let _ = list.push(7);
        let _ = list.pop();
    }

    #[test]
    fn the_lender_has_the_places_back(rt: HostRuntime) {
        let mut cells = [1, 2, 3];
        one_element(&mut cells);
        assert_eq!(rt; cells, [7, 2, 3]);
    }

    #[test]
    fn a_full_list_refuses_and_stays(rt: HostRuntime) {
        let mut cells = [(0u16, 0u8), (0, 0)];
        let mut list = Places::new(&mut cells);
        assert_eq!(rt; list.push((5, 1)), Ok(()));
        assert_eq!(rt; list.push((6, 0)), Ok(()));
        assert_eq!(rt; list.push((7, 1)), Err(Full));
        assert_eq!(rt; list.top(), Some((6, 0)));
        assert_eq!(rt; list.pop(), Some((6, 0)));
        assert_eq!(rt; list.get(1), None);
        assert_eq!(rt; list.get(0), Some((5, 1)));
        list.clear();
        assert_eq!(rt; list.pop(), None);
        assert_eq!(rt; list.replace_top((8, 8)), None);
        assert_eq!(rt; list.len(), 0);
    }

    #[test]
    fn a_slice_is_added_whole_or_not_at_all(rt: HostRuntime) {
        let mut cells = [1, 2, 3, 4];
        let mut list = Places::holding(&mut cells, 1);
        assert_eq!(rt; list.extend_from_slice(&[7, 8]), Ok(()));
        assert_eq!(rt; list.extend_from_slice(&[9, 9]), Err(Full));
        assert_eq!(rt; list.elements(), [1, 7, 8].as_slice());
    }
}
