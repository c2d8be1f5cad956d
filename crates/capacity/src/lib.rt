// Capacity: from a set to its limited shortfall, and a unit's shares of it.
#![tactic(auto)]

ghost use Rattle.std.specs.Prelude.{◌≡◌};
ghost use Rattle.capacity.specs.Quantities.{installed_watts};

// The quantities have a type each, with a private number: another crate makes and reads them by the public functions of this one
// alone, and tests/host/quantities lists the functions that may call those.

// Installed capacity (ICAP): I and T.
#[derive(Clone, Copy, Default)]
pub struct InstalledWatts(u64);

// Unforced capacity (UCAP): U, X, G, P and the limit; a shortfall, which below zero is an excess; shares and nets of it.
#[derive(Clone, Copy)]
pub struct UnforcedWatts(i64);

impl InstalledWatts {
    pub fn new(watts: u64) -> Self
        ensures { result ≡ installed_watts watts }
    {
        Self(watts)
    }

    pub fn watts(self) -> u64
        ensures { result ≡ self.0 }
    {
        self.0
    }
}

mod amounts;
pub mod laws;
pub mod rating;
pub mod shares;
pub mod shortfall;
