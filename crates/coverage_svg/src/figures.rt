use std::fmt;

// a length in tenths of a unit, written with one decimal
#[derive(Clone, Copy)]
pub struct Tenths(pub u64);

impl fmt::Display for Tenths {
    fn fmt<W: fmt::Write>(&self, f: &mut fmt::Formatter<W>) -> fmt::Result {
        let whole = self.0 / 10;
        let tenth = self.0 % 10;
        write!(f, "{whole}.{tenth}")
    }
}

// the units of three figures each, from the highest of 64 bits down
const UNITS: [u64; 7] = [
    1000000000000000000,
    1000000000000000,
    1000000000000,
    1000000000,
    1000000,
    1000,
    1,
];

// a number written with a comma before each three figures
#[derive(Clone, Copy)]
pub struct Grouped(pub u64);

impl fmt::Display for Grouped {
    fn fmt<W: fmt::Write>(&self, f: &mut fmt::Formatter<W>) -> fmt::Result {
        let mut begun = false;
        for unit in UNITS {
            let group = self.0 / unit.max(1) % 1000;
            if begun {
                write!(f, ",{group:03}")?;
            } else if group > 0 || unit == 1 {
                write!(f, "{group}")?;
                begun = true;
            }
        }
        Ok(())
    }
}
