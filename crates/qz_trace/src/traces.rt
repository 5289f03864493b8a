//! Rows of values.

ghost use Rattle.std.specs.Prelude.{◌↔◌, IsTrue};
ghost use Rattle.qz_trace.specs.Rows.{IsWhole};

/// So many rows, one for each step, of so many values each. A value is a number, 0 or 1 for a bool.
#[derive(Debug, Drop)]
pub struct Trace {
    /// How many values a row has.
    pub width: usize,
    /// How many rows there are.
    pub steps: usize,
    /// The values, row by row.
    pub values: Vec<u64>,
}

impl Trace {
    /// Whether there are as many values as the rows hold.
    pub fn is_whole(&self) -> bool
        ensures { IsTrue result ↔ IsWhole self.now }
    {
        match self.width.checked_mul(self.steps) {
            Some(count) => self.values.len() == count,
            None => false,
        }
    }
}
