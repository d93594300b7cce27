// The calls of an object in memory that are to fail, by their numbers from 1, with the counts of calls and faults.
ghost use Rattle.std.specs.Prelude.{◌≡◌, ◌≤◌, ℕ};
ghost use Rattle.std.specs.Bool.{OnTrue, OnFalse};
ghost use Rattle.ids_outside.specs.Counts.{next_count, Rose};
ghost use Rattle.ids_outside.specs.Memory.{is_listed};

#[derive(Drop)]
pub struct Failures {
    pub listed: Vec<u64>,
    pub calls: u64,
    pub faults: u64,
}

impl Failures {
    pub fn new(listed: Vec<u64>) -> Failures
        ensures { result ≡ record { listed = listed; calls = 0; faults = 0 } }
    {
        Failures {
            listed,
            calls: 0,
            faults: 0,
        }
    }

    // Counts a call, and answers whether it is to fail, which it then counts too.
    pub fn next_fails(&mut self) -> bool
        ensures listed { result ≡ is_listed self.old.listed.items self.new.calls }
        ensures calls { self.new.calls ≡ next_count self.old.calls }
        ensures same { self.new.listed ≡ self.old.listed }
        ensures later { self.old.faults ≤ self.new.faults }
        ensures rose { OnTrue result (Rose self.old.faults self.new.faults) }
        ensures constant { OnFalse result (self.new.faults ≡ self.old.faults) }
    {
        self.calls = self.calls.saturating_add(1);
        let fails = self.listed.contains(&self.calls);
        if fails {
            self.count_fault();
        }
        fails
    }

    // Counts a fault.
    pub fn count_fault(&mut self)
        ensures later { self.old.faults ≤ self.new.faults }
        ensures rose { Rose self.old.faults self.new.faults }
        ensures calls { self.new.calls ≡ self.old.calls }
        ensures same { self.new.listed ≡ self.old.listed }
    {
        self.faults = self.faults.saturating_add(1);
    }
}
