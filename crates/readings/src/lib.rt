// A reading, its no-reading value, and when it lies in an interval.
#![tactic(auto)]

ghost use Rattle.std.specs.Prelude.{◌≡◌};
ghost use Rattle.readings.specs.Reading.{inside, is_missing};

#[derive(Clone, Copy, Debug, PartialEq, Eq)]
pub struct Reading(pub i32);

impl Reading {
    pub const NO_READING: i32 = -2147483648;

    // The reading lies in the interval: low ≤ value ≤ high.
    #[tactic(auto, unfolding(crate::specs::Reading::inside))]
    pub fn within(self, low: i32, high: i32) -> bool
        ensures { result ≡ inside low self.0 high }
    {
        let value = self.0;
        (low <= value) & (value <= high)
    }

    // The reading is the no-reading value.
    #[tactic(auto, unfolding(crate::specs::Reading::is_missing))]
    pub fn is_missing(self) -> bool
        ensures { result ≡ is_missing self.0 }
    {
        let value = self.0;
        value == Reading::NO_READING
    }
}
