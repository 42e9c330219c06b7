//! Numbers under which a panel has no row.
ghost use Rattle.std.specs.Prelude.{◌≡◌, ◌≤◌, ◌<◌, IsTrue, ℕ};

/// The numbers from `first` up to and with `last`; none where `last` is below `first`.
#[derive(Clone, Copy)]
pub(crate) struct FreeNumbers {
    pub first: u64,
    pub last: u64,
}

impl FreeNumbers {
    /// Those from a number on and below another.
    pub(crate) fn between(first: u64, end: u64) -> FreeNumbers
        ensures { (n : ℕ) → result.first ≤ n → n ≤ result.last → (first ≤ n) × (n < end) }
    {
        if first < end {
            FreeNumbers {
                first,
                last: end - 1,
            }
        } else {
            FreeNumbers { first: 1, last: 0 }
        }
    }

    /// Whether all from one number up to and with another are among them.
    pub(crate) fn has_all(&self, first: u64, last: u64) -> bool
        ensures { IsTrue result → (self.now.first ≤ first) × (last ≤ self.now.last) }
    {
        self.first <= first && last <= self.last
    }

    /// Those that are left where one number is taken out: of two parts the lower one, since numbers come nearly in their
    /// order.
    pub(crate) fn without(&self, number: u64) -> FreeNumbers
        ensures { (n : ℕ) → result.first ≤ n → n ≤ result.last → (self.now.first ≤ n) × (n ≤ self.now.last) × (number ≡ n → ⊥) }
    {
        if number < self.first || self.last < number {
            return *self;
        }
        if self.first < number {
            return FreeNumbers::between(self.first, number);
        }
        match number.checked_add(1) {
            Some(first) => FreeNumbers {
                first,
                last: self.last,
            },
            None => FreeNumbers::between(number, number),
        }
    }
}
