//! How many rows there were, how many of them differ, and how many lines are wrong.

ghost use Rattle.std.specs.Prelude.{min, if◌then◌else◌, ◌+◌, ◌-◌, ◌^◌, ◌≡◌, ◌<◌, ◌↔◌};

/// The counts of a data file, or of all.
#[derive(Clone, Copy, Debug, PartialEq, Eq)]
pub struct Counts {
    pub rows: u32,
    pub differ: u32,
    pub faults: u32,
}

impl Counts {
    pub fn new() -> Counts
        ensures { result ≡ record { rows = 0; differ = 0; faults = 0 } }
    {
        Counts {
            rows: 0,
            differ: 0,
            faults: 0,
        }
    }

    /// The counts with another row, which differs or not. No count goes above 4294967295.
    pub fn and_row(self, differs: bool) -> Counts
        ensures rows { result.rows ≡ min (self.rows + 1) (2 ^ 32 - 1) }
        ensures differ { result.differ
            ≡ min (self.differ + (if differs then 1 else 0)) (2 ^ 32 - 1) }
        ensures faults { result.faults ≡ self.faults }
    {
        Counts {
            rows: self.rows.saturating_add(1),
            differ: self.differ.saturating_add(u32::from(differs)),
            faults: self.faults,
        }
    }

    /// The counts with another line that is wrong.
    pub fn and_fault(self) -> Counts
        ensures faults { result.faults ≡ min (self.faults + 1) (2 ^ 32 - 1) }
        ensures rows { result.rows ≡ self.rows }
        ensures differ { result.differ ≡ self.differ }
    {
        Counts {
            faults: self.faults.saturating_add(1),
            ..self
        }
    }

    /// The sum of two counts.
    pub fn and(self, other: Counts) -> Counts
        ensures rows { result.rows ≡ min (self.rows + other.rows) (2 ^ 32 - 1) }
        ensures differ { result.differ ≡ min (self.differ + other.differ) (2 ^ 32 - 1) }
        ensures faults { result.faults ≡ min (self.faults + other.faults) (2 ^ 32 - 1) }
    {
        Counts {
            rows: self.rows.saturating_add(other.rows),
            differ: self.differ.saturating_add(other.differ),
            faults: self.faults.saturating_add(other.faults),
        }
    }

    /// The exit status: 0 where there are rows, none differs and no line is wrong.
    pub fn status(self) -> u8
        ensures { result ≡ 0 ↔ ((0 < self.rows) × (self.differ ≡ 0) × (self.faults ≡ 0)) }
    {
        if self.rows > 0 && self.differ == 0 && self.faults == 0 {
            0
        } else {
            1
        }
    }
}
