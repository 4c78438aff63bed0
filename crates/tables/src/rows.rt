// A list of fixed size, for items that are put in one after another.
ghost use Rattle.std.specs.Prelude.{◌≡◌, [], ◌≤◌, length, is_ok, ◌==◌};
ghost use Rattle.tables.specs.Rows.{laid, in_use, has_room, pushed};

// `count` rows are in use, the first ones; the others hold what they began with. An array with its count, and no `Vec`: the
// record that a sheet fills asks for no memory, and equal sheets give equal records, unused rows and all.
#[derive(Clone, Copy)]
pub struct Rows<T, const N: usize> {
    count: u8,
    items: [T; N],
}

// Every row is in use.
#[derive(Clone, Copy, Debug, PartialEq, Eq)]
pub struct NoRoom;

impl<T: Copy, const N: usize> Rows<T, N> {
    // No rows in use, and `zero` in each.
    pub fn new(zero: T) -> Self
        ensures { result ≡ laid N zero [] }
    {
        Rows {
            count: 0,
            items: [zero; N],
        }
    }

    // The items in use, in the order in which they were put in.
    pub fn as_slice(&self) -> &[T]
        ensures is { result.now ≡ in_use N self.now }
        ensures few { length result.now ≤ N }
    {
        &self.items[..(self.count as usize).min(N)]
    }

    // How many items are in use.
    pub fn len(&self) -> usize
        ensures { result ≡ length (in_use N self.now) }
    {
        self.as_slice().len()
    }

    // Whether no item is in use.
    pub fn is_empty(&self) -> bool
        ensures { result ≡ (length (in_use N self.now) == 0) }
    {
        self.len() == 0
    }

    // Whether there is room for one item more.
    pub fn has_room(&self) -> bool
        ensures { result ≡ has_room N self.now }
    {
        (self.count as usize) < N && self.count < u8::MAX
    }

    // Puts an item behind the others, or changes nothing where there is no room for it.
    pub fn push(&mut self, item: T) -> Result<(), NoRoom>
        ensures answers { is_ok result ≡ has_room N self.old }
        ensures holds { self.new ≡ pushed N self.old item }
    {
        if !self.has_room() {
            return Err(NoRoom);
        }
        self.items[self.count as usize] = item;
        self.count += 1;
        Ok(())
    }
}
