use layout::kinds::{Kind, Spot};

// the first line that breaks a rule or is missing, from 1
#[derive(Clone, Copy, Debug, PartialEq, Eq)]
pub struct SheetFault {
    pub line: usize,
}

// a field's name
#[derive(Clone, Copy, PartialEq, Eq)]
pub enum Field {
    Security,
    Action,
    Side,
    Position,
    Price,
    Size,
    Oid,
    Firm,
    Value,
    Last,
    Bids,
    Offers,
    Stats,
    Group,
}

// a line of the sheet: a field of a template and where it lies
#[derive(Clone, Copy)]
pub struct FieldLine {
    pub template: u16,
    pub kind: Kind,
    pub field: Field,
    pub spot: Spot,
}
