// Numbers that look random, all of them made from one.
ghost use Rattle.std.specs.Prelude.{◌≡◌, ◌≤◌};

/// What becomes of a write that no sync has followed.
#[derive(Drop)]
pub(crate) enum Fate {
    Lost,
    Whole,
    Torn,
}

/// A stream of numbers by the generator SplitMix64.
#[derive(Drop)]
pub(crate) struct Draw {
    choice: u64,
    state: u64,
}

impl Draw {
    pub(crate) fn new(choice: u64) -> Draw
        ensures { result.choice ≡ choice }
    {
        Draw {
            choice,
            state: choice,
        }
    }

    /// By the choice 0 each write is lost, by the choice 1 each is whole, and by any other each has a
    /// fate of its own.
    pub(crate) fn fate(&mut self) -> Fate
        ensures lost { self.old.choice ≡ 0 → result ≡ Fate.Lost }
        ensures whole { self.old.choice ≡ 1 → result ≡ Fate.Whole }
        ensures choice { self.new.choice ≡ self.old.choice }
    {
        match (self.choice, self.next() % 4) {
            (0, _) => Fate::Lost,
            (1, _) => Fate::Whole,
            (_, 0) => Fate::Lost,
            (_, 1) => Fate::Whole,
            _ => Fate::Torn,
        }
    }

    /// A number from 0 on, and no greater than this one.
    pub(crate) fn up_to(&mut self, most: usize) -> usize
        ensures bound { result ≤ most }
        ensures choice { self.new.choice ≡ self.old.choice }
    {
        match most.checked_add(1) {
            Some(count) => self.next() as usize % count,
            None => self.next() as usize,
        }
    }

    /// One of the two bytes, or any other.
    pub(crate) fn byte(&mut self, old: u8, new: u8) -> u8
        ensures { self.new.choice ≡ self.old.choice }
    {
        let drawn = self.next();
        match drawn % 4 {
            0 => old,
            1 => new,
            _ => (drawn / 256 % 256) as u8,
        }
    }

    fn next(&mut self) -> u64
        ensures { self.new.choice ≡ self.old.choice }
    {
        self.state = self.state.wrapping_add(0x9E37_79B9_7F4A_7C15);
        let mixed = self.state;
        let mixed = (mixed ^ (mixed >> 30)).wrapping_mul(0xBF58_476D_1CE4_E5B9);
        let mixed = (mixed ^ (mixed >> 27)).wrapping_mul(0x94D0_49BB_1331_11EB);
        mixed ^ (mixed >> 31)
    }
}
