//! Numbers by lot.
ghost use Rattle.std.specs.Prelude.{◌≡◌, ◌⊎◌, ◌<◌, Some};
ghost use Rattle.rulelines.specs.Seeds.{seed_of};

/// A source of numbers by lot, SplitMix64: the same seed gives the same numbers.
#[derive(Clone, Copy)]
pub struct Lots {
    /// What the next number is made of.
    state: u64,
}

impl Lots {
    /// Returns the source of a seed.
    pub fn new(seed: u64) -> Lots
        ensures { seed_of result ≡ seed }
    {
        Lots { state: seed }
    }

    // Returns the next number of 64 bits.
    fn next(&mut self) -> u64 {
        self.state = self.state.wrapping_add(0x9E37_79B9_7F4A_7C15);
        let mut mixed = self.state;
        mixed = (mixed ^ (mixed >> 30)).wrapping_mul(0xBF58_476D_1CE4_E5B9);
        mixed = (mixed ^ (mixed >> 27)).wrapping_mul(0x94D0_49BB_1331_11EB);
        mixed ^ (mixed >> 31)
    }

    /// Returns a number below another one, or 0 if there is none.
    pub(crate) fn below(&mut self, end: u32) -> u32
        ensures { 0 < end → result < end }
    {
        if end == 0 {
            return 0;
        }
        (self.next() % u64::from(end)) as u32
    }
}

/// One of the numbers that were offered, by lot.
#[derive(Clone, Copy)]
pub(crate) struct Choice {
    /// How many numbers were offered.
    count: u32,
    /// The number.
    pub(crate) number: Option<usize>,
}

/// No number.
pub(crate) const NO_CHOICE: Choice = Choice {
    count: 0,
    number: None,
};

/// Offers one more number, which takes the place of the one before with the odds of one in all.
pub(crate) fn offer(choice: Choice, number: usize, lots: &mut Lots) -> Choice
    ensures { (result.number ≡ choice.number) ⊎ (result.number ≡ Some number) }
{
    let count = choice.count.saturating_add(1);
    if lots.below(count) == 0 {
        Choice {
            count,
            number: Some(number),
        }
    } else {
        Choice {
            count,
            number: choice.number,
        }
    }
}
