// The set of the places whose items pass a test.
ghost use Rattle.std.specs.Prelude.{Bool, length, ◌≡◌, ◌≤◌};
ghost use Rattle.log_votes.specs.Scan.{set_of};

// A test of an item.
pub trait Test<T> {
    ghost passing: { Self → T → Bool };

    fn passes(&self, item: &T) -> bool
        ensures { result ≡ passing self.now item.now };
}

// Bit i for the item at place i. Nothing is said of more than 32 items.
pub fn set_of<T, S: Test<T>>(items: &[T], test: &S) -> u32
    ensures { length items.now ≤ 32 → result ≡ set_of (S.passing test.now) items.now }
{
    let mut set: u32 = 0;
    for (i, item) in items.iter().enumerate() {
        set |= u32::from(test.passes(item)) << (i % 32);
    }
    set
}
