// The front of lent memory. It holds zeros once this is let go, unless `keep` leaves it as it is.
ghost use Rattle.std.specs.Prelude.{◌≡◌, ℕ, slice_index};

pub(crate) struct Front<'w> {
    pub(crate) numbers: &'w mut [u32],
}

impl Drop for Front<'_> {
    fn drop(self)
        ensures { (p : ℕ) → slice_index self.exit.0.now p ≡ 0 }
    {
        self.numbers.fill(0);
        // a `drop` takes its value apart, as Rattle asks
        let Front { numbers: _ } = self;
    }
}

impl Front<'_> {
    ghost use Rattle.std.specs.Prelude.{◌≡◌};

    // Leaves the numbers as they are.
    pub(crate) fn keep(self)
        ensures { self.exit.0.now ≡ self.entry.numbers.now }
    {
        let Front { numbers: _ } = self;
    }
}
