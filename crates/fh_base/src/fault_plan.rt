// Which calls on an object in memory are to fail, and how many have.
ghost use Rattle.std.specs.Prelude.{◌≡◌};
ghost use Rattle.fh_base.specs.FaultPlan.{counted, fails_next, is_to_fail, raised};

/// The calls that are to fail, counted from 1 among those that can.
#[derive(Debug, Drop)]
pub enum Failing {
    Listed { calls: Vec<u64> },
    /// So many calls pass, and every later one fails.
    After { passed: u64 },
}

/// Which calls on an object in memory are to fail, and how many have.
#[derive(Debug, Drop)]
pub struct FaultPlan {
    pub failing: Failing,
    pub calls: u64,
    pub faults: u64,
}

impl FaultPlan {
    /// No call was made yet.
    pub fn new(failing: Failing) -> FaultPlan
        ensures { result ≡ record { failing = failing; calls = 0; faults = 0 } }
    {
        FaultPlan {
            failing,
            calls: 0,
            faults: 0,
        }
    }

    /// Counts a call, and says whether it is to fail. A call that is to fail is counted as a fault.
    pub fn fails_now(&mut self) -> bool
        ensures answer { result ≡ fails_next self.old }
        ensures after { self.new ≡ counted self.old }
    {
        self.calls = self.calls.saturating_add(1);
        let fails = self.is_to_fail();
        if fails {
            self.fail();
        }
        fails
    }

    /// Counts a fault.
    pub fn fail(&mut self)
        ensures { self.new ≡ record self.old { faults = raised self.old.faults } }
    {
        self.faults = self.faults.saturating_add(1);
    }

    fn is_to_fail(&self) -> bool
        ensures { result ≡ is_to_fail self.now.failing self.now.calls }
    {
        match &self.failing {
            Failing::Listed { calls } => calls.contains(&self.calls),
            Failing::After { passed } => *passed < self.calls,
        }
    }
}
