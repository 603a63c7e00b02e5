use destinations::destination::Flow;

// the figures of several flows together: the lowest and the highest number, and the sums
#[derive(Clone, Copy, Default)]
pub struct Sums {
    pub first: Option<u32>,
    pub last: Option<u32>,
    pub missing: u64,
    pub repeated: u64,
    pub late: u64,
}

// One of two numbers, of which either may be absent; `choose` says which where both are there.
fn either<F: Fn(u32, u32) -> u32>(a: Option<u32>, b: Option<u32>, choose: F) -> Option<u32>
    requires { F.IsAlwaysCallable choose }
{
    match (a, b) {
        (Some(x), Some(y)) => Some(choose(x, y)),
        _ => a.or(b),
    }
}

impl Sums {
    // Of these flows.
    pub fn of(flows: &[Flow]) -> Sums {
        let mut sums = Sums::default();
        sums.add(flows);
        sums
    }

    // Adds the figures of these flows.
    pub fn add(&mut self, flows: &[Flow]) {
        for flow in flows {
            let stream = &flow.stream;
            self.first = either(self.first, stream.first(), |x, y| x.min(y));
            self.last = either(self.last, stream.last(), |x, y| x.max(y));
            self.missing = self.missing.saturating_add(stream.missing());
            self.repeated = self.repeated.saturating_add(stream.repeated());
            self.late = self.late.saturating_add(stream.late());
        }
    }
}
