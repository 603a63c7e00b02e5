use layout::sheet::Sheet;

// a store that an opening may get: orders of that depth over a table of so many orders, which has so many slots, or panels
#[derive(Clone, Copy)]
pub enum Choice {
    Orders {
        depth: usize,
        room: usize,
        slots: usize,
    },
    Panel,
}

// an opening that is taken
#[derive(Drop)]
pub struct Opening {
    pub choice: Choice,
    pub sheet: Sheet,
    pub own: u64,
    pub channel: u8,
    pub version: u16,
    pub ids: Vec<u64>,
}

impl Choice {
    // How many slots the store has.
    pub fn slots(self) -> usize {
        match self {
            Choice::Orders {
                depth: _,
                room: _,
                slots,
            } => slots,
            Choice::Panel => 64,
        }
    }
}
