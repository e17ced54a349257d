// A counted list over a lent space, for every record type. The count is lent too, by whoever keeps the totals. It is no
// `Vec`, since reading allocates nothing.
#![tactic(auto)]

ghost use Rattle.std.specs.Prelude.{◌≡◌, ℕ, ◌+◌, ◌-◌, ◌<◌, ◌≤◌, min, List, [], ◌∷◌, ◌++◌, length, take, drop, if◌then◌else◌, Ok, Err, MatchOption, nat_lt, slice_index_or, slice_set};
ghost use Rattle.lists.specs.Lists.{items, rest, used, room, Lent, Pushed, Same};

#[derive(Drop)]
pub struct Counted<'a, 'c, T> {
    space: &'a mut [T],
    count: &'c mut usize,
}

impl<'a, 'c, T: Copy> Counted<'a, 'c, T> {
    // A list over this space, with so many records in use. That the lenders stay the same is said of each call, since no
    // invariant can name the list before it.
    pub fn new(space: &'a mut [T], count: &'c mut usize) -> Counted<'a, 'c, T>
        ensures holds { result.space.now ≡ space.old }
        ensures counts { result.count.now ≡ count.old }
        ensures lender { (result.space.ghost_name ≡ space.entry.ghost_name) × (result.count.ghost_name ≡ count.entry.ghost_name) }
    {
        Counted { space, count }
    }

    // How many records are in the list.
    pub fn count(&self) -> usize
        ensures { result ≡ used self.now }
    {
        *self.count
    }

    // How many records the space holds at most.
    pub fn capacity(&self) -> usize
        ensures { result ≡ room self.now }
    {
        self.space.len()
    }

    // Adds a record at the end and answers its number; a full space takes none and hands it back.
    pub fn push(&mut self, x: T) -> Result<usize, T>
        ensures value { result ≡ (if nat_lt (used self.old) (room self.old) then Ok (used self.old) else Err x) }
        ensures pushed { used self.old < room self.old → Pushed self.old x self.new }
        ensures full { room self.old ≤ used self.old → Same self.old self.new }
        ensures room { room self.new ≡ room self.old }
        ensures lender { Lent self.old self.new }
    {
        let at = *self.count;
        if at >= self.space.len() {
            return Err(x);
        }
        self.space[at] = x;
        *self.count = at + 1;
        Ok(at)
    }

    // Takes the last record off. A list can be made over any count, so that what reads records asks that it is within
    // the space; an invariant would ask it of `new`.
    pub fn pop(&mut self) -> Option<T>
        requires { used self.old ≤ room self.old }
        ensures cases { MatchOption result ((used self.old ≡ 0) × (used self.new ≡ 0)) (λ x. (items self.old ≡ items self.new ++ x ∷ []) × (used self.new + 1 ≡ used self.old)) }
        ensures space { self.new.space.now ≡ self.old.space.now }
        ensures lender { Lent self.old self.new }
    {
        let last = self.count.checked_sub(1)?;
        *self.count = last;
        Some(self.space[last])
    }

    pub fn get(&self, i: usize) -> T
        requires within { i < used self.now }
        requires held { used self.now ≤ room self.now }
        ensures { result ≡ slice_index_or (items self.now) i result }
    {
        let all: &[T] = self.space;
        all[i]
    }

    // Puts another record in the place of one.
    pub fn put(&mut self, i: usize, x: T)
        requires within { i < used self.old }
        requires held { used self.old ≤ room self.old }
        ensures items { items self.new ≡ slice_set (items self.old) i x }
        ensures rest { rest self.new ≡ rest self.old }
        ensures count { used self.new ≡ used self.old }
        ensures room { room self.new ≡ room self.old }
        ensures lender { Lent self.old self.new }
    {
        self.space[i] = x;
    }

    // Lets go of all records but the first n; a shorter list stays as it is.
    pub fn truncate(&mut self, n: usize)
        ensures items { items self.new ≡ take n (items self.old) }
        ensures space { self.new.space.now ≡ self.old.space.now }
        ensures count { used self.new ≡ min n (used self.old) }
        ensures lender { Lent self.old self.new }
    {
        *self.count = n.min(*self.count);
    }
}

// Adds a record behind those in use of a space. The list is made over a plain slice, so that the caller learns what its
// space holds after.
pub fn append<T: Copy>(space: &mut [T], count: &mut usize, x: T) -> Result<usize, T>
    ensures value { result ≡ (if nat_lt count.old (length space.old) then Ok count.old else Err x) }
    ensures pushed { count.old < length space.old → take count.new space.new ≡ take count.old space.old ++ x ∷ [] }
    ensures behind { count.old < length space.old → drop count.new space.new ≡ drop 1 (drop count.old space.old) }
    ensures count { count.old < length space.old → count.new ≡ count.old + 1 }
    ensures full { length space.old ≤ count.old → (space.new ≡ space.old) × (count.new ≡ count.old) }
{
    let mut list = Counted::new(space, count);
    list.push(x)
}
