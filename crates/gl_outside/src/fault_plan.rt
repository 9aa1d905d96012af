//! Which calls of an object in memory are to fail.

ghost use Rattle.std.specs.Prelude.{◌≡◌, ◌+◌, ◌^◌, ◌<◌, if◌then◌else◌, IsTrue};
ghost use Rattle.gl_outside.specs.Fault.{next_call};
ghost use Rattle.gl_outside.specs.Plan.{faults_of, fails_next, is_chosen};

/// The calls that are to fail, and how many calls there were.
#[derive(Clone, Copy, Debug)]
pub struct FaultPlan<'a> {
    /// The numbers of the calls that are to fail. The first call is 1.
    pub failing: &'a [u64],
    /// How many calls there were. Calls after the last value of a u64 aren't counted, and don't
    /// fail.
    pub calls: u64,
}

impl<'a> FaultPlan<'a> {
    pub fn new(failing: &'a [u64]) -> Self
        ensures { result ≡ record { failing = failing.entry; calls = 0 } }
    {
        FaultPlan { failing, calls: 0 }
    }

    /// How many calls failed.
    pub fn faults(&self) -> u64
        ensures { result ≡ faults_of self.now }
    {
        let mut faults = 0;
        for before in 0..self.calls {
            if self.failing.contains(&(before + 1)) {
                faults += 1;
            }
        }
        faults
    }

    /// Counts a call, and reports whether it is to fail.
    pub(crate) fn next_fails(&mut self) -> bool
        ensures numbered { self.new.calls ≡ next_call self.old.calls }
        ensures failing { self.new.failing ≡ self.old.failing }
        ensures chosen { result ≡ fails_next self.old }
        ensures faults { faults_of self.new ≡ faults_of self.old + (if result then 1 else 0) }
    {
        let fails = is_next_chosen(self.failing, self.calls);
        self.calls = self.calls.saturating_add(1);
        fails
    }
}

/// Whether the call after so many is to fail.
fn is_next_chosen(failing: &[u64], calls: u64) -> bool
    ensures chosen { result ≡ is_chosen failing.now (calls + 1) }
    ensures counted { IsTrue result → calls + 1 < 2 ^ 64 }
{
    match calls.checked_add(1) {
        Some(call) => failing.contains(&call),
        None => false,
    }
}
