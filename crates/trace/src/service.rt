use crate::fault::LineFault;
use crate::opening::Opening;
use crate::session::{Session, bytes_of};
use crate::shows::{Shows, View};
use crate::telling::tell;
use commands::command::Command;
use commands::digest::digest;
use commands::parse::parse;
use orders::side::Side;
use replay::call::Call;
use replay::desk::Desk;
use replay::tape::Tape;
use std::alloc::AllocError;
use store::store::Store;

// how many calls wait at most, and how many bytes there are at most when another is added
const CALLS: usize = 256;

const BYTES: usize = 65536;

// a receiver in service, with what its calls are lent, and the calls that wait
pub struct Service<'s, S> {
    pub desk: Desk,
    pub store: &'s mut S,
    pub shelf: Vec<u8>,
    pub tape: Tape,
}

// Puts the call that a command makes of the receiver on a tape; its bytes are read in that room.
fn tape_call(tape: &mut Tape, room: &mut Vec<u8>, command: Command) -> Result<(), LineFault> {
    match command {
        Command::Inc(word) => tape.add(Call::Incremental(bytes_of(word, room)?))?,
        Command::Snap(word) => tape.add(Call::Snapshot(bytes_of(word, room)?))?,
        Command::Join => tape.add(Call::Join)?,
        Command::Leave => tape.add(Call::Leave)?,
        Command::Ask(id) => tape.add(Call::Question(id))?,
        _ => return Err(LineFault::Unknown),
    }
    Ok(())
}

// Writes bytes into the shelf from a place on, where they lie inside it.
fn poke(shelf: &mut [u8], at: u64, bytes: &[u8]) -> Result<(), LineFault> {
    let n = bytes.len();
    if at > shelf.len() as u64 || n > shelf.len() - at as usize {
        return Err(LineFault::Unknown);
    }
    let from = at as usize;
    shelf[from..from + n].copy_from_slice(bytes);
    Ok(())
}

impl<'s, S: Store + Shows> Service<'s, S> {
    // Whether the calls that wait are to be performed before another is added.
    fn is_full(&self) -> bool {
        self.tape.len() >= CALLS || self.tape.size() >= BYTES
    }

    // Performs the calls that wait as one row, and writes their answers; none waits then.
    pub fn perform(&mut self, session: &mut Session) -> Result<(), AllocError> {
        let mut answers = Vec::new(session.heap);
        let row = self.tape.row()?;
        self.desk.perform_all(
            self.store,
            self.shelf.as_mut_slice(),
            row.as_slice(),
            &mut answers,
        )?;
        drop(row);
        for answer in &answers {
            tell(*answer, session)?;
        }
        self.tape.clear();
        Ok(())
    }

    // Lets a line wait that is a call of the receiver. Any other is answered once the calls that wait are performed; the opening,
    // where it is one.
    pub fn take_line(
        &mut self,
        session: &mut Session,
        line: &[u8],
    ) -> Result<Option<Opening>, LineFault> {
        if self.is_full() {
            self.perform(session)?;
        }
        let command = parse(line);
        if let Some(command) = command {
            match tape_call(&mut self.tape, &mut session.room, command) {
                Ok(()) => return Ok(None),
                Err(LineFault::Unknown) => {}
                Err(fault) => return Err(fault),
            }
        }
        self.perform(session)?;
        match command {
            Some(command) => self.answer(session, command),
            None => Err(LineFault::Unknown),
        }
    }

    // Answers a command that is no call of the receiver.
    fn answer(
        &mut self,
        session: &mut Session,
        command: Command,
    ) -> Result<Option<Opening>, LineFault> {
        match command {
            Command::Shelf(length) => self.resize(session, length)?,
            Command::Poke(at, word) => {
                let bytes = bytes_of(word, &mut session.room)?;
                poke(self.shelf.as_mut_slice(), at, bytes)?;
                writeln!(&mut session.out, "poked")?;
            }
            Command::Shelfsum => {
                let sum = digest(self.shelf.as_slice());
                writeln!(&mut session.out, "shelfsum {sum:016x}")?;
            }
            Command::Bids(id) => self.show(session, id, View::Side(Side::Bid))?,
            Command::Offers(id) => self.show(session, id, View::Side(Side::Offer))?,
            Command::Stats(id) => self.show(session, id, View::Statistics)?,
            _ => return session.answer(command),
        }
        Ok(None)
    }

    // Gives the shelf another length.
    fn resize(&mut self, session: &mut Session, length: u64) -> Result<(), LineFault> {
        if length > 65536 {
            return Err(LineFault::Unknown);
        }
        self.shelf.resize(length as usize, 0)?;
        writeln!(&mut session.out, "shelf {length}")?;
        Ok(())
    }

    // Writes what a view shows of a watched instrument, or the refusal.
    fn show(&self, session: &mut Session, id: u64, view: View) -> Result<(), LineFault> {
        if !self.store.has(view) {
            return Err(LineFault::Unknown);
        }
        match self.desk.slot(id) {
            Ok(slot) => {
                write!(&mut session.out, "{view}")?;
                self.store.show(slot, view, &mut session.out)?;
                writeln!(&mut session.out, "")?;
            }
            Err(fault) => session.refuse(fault)?,
        }
        Ok(())
    }
}
