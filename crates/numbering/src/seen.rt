// what a number is to those that came before: a new highest one, one that came before, one below the highest that came late
#[derive(Clone, Copy, Debug, PartialEq, Eq)]
pub enum Seen {
    New,
    Repeated,
    Late,
}
