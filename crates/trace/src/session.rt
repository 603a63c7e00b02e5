use crate::fault::LineFault;
use crate::opening::{Choice, Opening};
use crate::telling::list_packet;
use commands::command::Command;
use commands::number::numbers;
use commands::parse::parse;
use layout::sheet::Sheet;
use orders::opening::count_slots;
use packet::checked::Checked;
use packet::rules::check;
use receiver::checks::check_opening;
use refusal::Refusal;
use sheet_text::filling::fill;
use std::alloc::{AllocError, Global};

// what the commands of a trace work on, besides a receiver: the sheet in force, the store that the next opening gets, the answers
// that are not printed yet, and room for the bytes of a word
#[derive(Drop)]
pub struct Session {
    pub heap: Global,
    sheet: Option<Sheet>,
    choice: Option<Choice>,
    pub out: String,
    pub room: Vec<u8>,
}

// The bytes that a word of hexadecimal digits stands for, written into that room.
pub fn bytes_of<'r>(word: &[u8], room: &'r mut Vec<u8>) -> Result<&'r [u8], LineFault> {
    hex_digits::decode(word, room)?.ok_or(LineFault::Unknown)?;
    Ok(room.as_slice())
}

impl Session {
    pub fn new(heap: Global) -> Session {
        Session {
            heap,
            sheet: None,
            choice: None,
            out: String::new(heap),
            room: Vec::new(heap),
        }
    }

    // Prints what has gathered, once it is a block.
    pub fn print_block(&mut self, rt: &HostRuntime) -> anyhow::Result<()> {
        if self.out.len() > 65536 {
            rt.print(self.out.as_str())?;
            self.out.clear();
        }
        Ok(())
    }

    // Writes a refusal.
    pub fn refuse<F: Drop>(&mut self, fault: F) -> Result<(), AllocError>
    where
        Refusal: From<F>,
    {
        let refusal = Refusal::from(fault);
        writeln!(&mut self.out, "refused {refusal}")
    }

    // Answers a line before the first opening; the opening, where it is one.
    pub fn take_line(&mut self, line: &[u8]) -> Result<Option<Opening>, LineFault> {
        match parse(line) {
            Some(command) => self.answer(command),
            None => Err(LineFault::Unknown),
        }
    }

    // Answers a command that needs no receiver; an opening that is taken is left to the caller.
    pub fn answer(&mut self, command: Command) -> Result<Option<Opening>, LineFault> {
        match command {
            Command::Sheet(word) => self.read_sheet(word)?,
            Command::Check(word) => self.check_packet(word)?,
            Command::StoreOrders(depth, table) => self.keep_orders(depth, table)?,
            Command::StorePanel => {
                self.choice = Some(Choice::Panel);
                writeln!(&mut self.out, "store 64")?;
            }
            Command::Open(own, channel, version, ids) => {
                return self.open(own, channel, version, ids);
            }
            _ => return Err(LineFault::Unknown),
        }
        Ok(None)
    }

    fn read_sheet(&mut self, word: &[u8]) -> Result<(), LineFault> {
        let text = bytes_of(word, &mut self.room)?;
        let mut sheet = Sheet::blank(self.heap)?;
        match fill(&mut sheet, text) {
            Ok(()) => {
                let n = sheet.templates.len();
                self.sheet = Some(sheet);
                writeln!(&mut self.out, "sheet {n}")?;
            }
            Err(fault) => self.refuse(fault)?,
        }
        Ok(())
    }

    fn check_packet(&mut self, word: &[u8]) -> Result<(), LineFault> {
        let Some(sheet) = &self.sheet else {
            return Err(LineFault::Unknown);
        };
        let bytes = bytes_of(word, &mut self.room)?;
        match check(sheet, bytes) {
            Ok(()) => list_packet(&Checked::new(sheet, bytes), &mut self.out)?,
            Err(fault) => self.refuse(fault)?,
        }
        Ok(())
    }

    // No more of a table than 130 rows is ever used.
    fn keep_orders(&mut self, depth: u64, table: u64) -> Result<(), LineFault> {
        let depth = depth as usize;
        let room = (table as usize).min(depth.saturating_mul(130));
        match count_slots(depth, room) {
            Ok(slots) => {
                self.choice = Some(Choice::Orders { depth, room, slots });
                writeln!(&mut self.out, "store {slots}")?;
            }
            Err(fault) => self.refuse(fault)?,
        }
        Ok(())
    }

    // The opening that is asked for, of the instruments that a word lists; or its refusal.
    fn open(
        &mut self,
        own: u64,
        channel: u8,
        version: u16,
        word: Option<&[u8]>,
    ) -> Result<Option<Opening>, LineFault> {
        let ids = match word {
            Some(word) => numbers(self.heap, word, b' ')?.ok_or(LineFault::Unknown)?,
            None => Vec::new(self.heap),
        };
        let (Some(sheet), Some(choice)) = (&self.sheet, self.choice) else {
            return Err(LineFault::Unknown);
        };
        if let Err(fault) = check_opening(ids.as_slice(), version, choice.slots()) {
            self.refuse(fault)?;
            return Ok(None);
        }
        let sheet = sheet.clone()?;
        self.choice = None;
        Ok(Some(Opening {
            choice,
            sheet,
            own,
            channel,
            version,
            ids,
        }))
    }
}
