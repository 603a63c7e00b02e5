use crate::course::{Course, Lane, Role};
use crate::output::Output;
use crate::picture::Picture;
use crate::told::Told;
use changes::named::Named;
use layout::sheet::Sheet;
use packet::checked::Checked;
use packet::rules::check;
use settling::watch::Watch;
use std::alloc::{AllocError, Global};

// how many orders are kept on a side, and whether a side was full when a book got stale
#[derive(Clone, Copy)]
pub struct Depth {
    pub orders: usize,
    pub full: bool,
}

// where the pass over a capture stands; there is a depth where orders are kept
#[derive(Drop)]
pub struct State {
    pub course: Course,
    pub sheet: Sheet,
    pub watch: Watch,
    pub told: Vec<Told>,
    pub named: Named,
    pub lanes: Vec<Lane>,
    pub records: u64,
    pub packets: u64,
    pub adoptions: u64,
    pub heard: u64,
    pub depth: Option<Depth>,
    pub heap: Global,
    pub picture: Option<Picture>,
    pub out: Output,
}

impl State {
    pub fn new(
        heap: Global,
        course: Course,
        sheet: Sheet,
        watch: Watch,
        depth: Option<Depth>,
        picture: Option<Picture>,
        out: Output,
    ) -> Result<State, AllocError> {
        let statistics = sheet
            .templates
            .iter()
            .filter(|t| t.layout.is_stat())
            .count();
        let told = course
            .watch
            .iter()
            .map(|id| Told::new(heap, *id, statistics))
            .try_collect(heap)?;
        let lanes = course.lanes(heap)?;
        Ok(State {
            course,
            sheet,
            watch,
            told,
            named: Named::new(),
            lanes,
            records: 0,
            packets: 0,
            adoptions: 0,
            heard: 0,
            depth,
            heap,
            picture,
            out,
        })
    }

    // Notes which instruments a packet names; a snapshot's packets name them under the lowest number.
    pub fn name(&mut self, payload: &[u8], role: Role) {
        if check(&self.sheet, payload).is_ok() {
            let packet = Checked::new(&self.sheet, payload);
            let number = match role {
                Role::Incremental => u64::from(packet.head().number),
                Role::Snapshot => 1,
            };
            self.named.note(&self.watch, packet.walk(), number);
        }
    }

    // Closes the stretch of packets at which each book had its mark.
    pub fn close_stretches(&mut self) {
        for told in self.told.iter_mut() {
            told.close_stretch(self.packets, self.heard);
        }
    }
}
