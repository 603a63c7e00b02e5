ghost use Rattle.std.specs.Prelude.{◌≡◌, ℕ, [], ◌∷◌, ◌++◌, length, take, drop, IfOk, MatchResult};
ghost use Rattle.replay.specs.Requests.{request};
ghost use Rattle.replay.specs.Rows.{requests};
ghost use Rattle.replay.specs.Entries.{bytes_in, entry_at, asked};
ghost use Rattle.replay.specs.Taped.{taped};

use crate::call::Call;
use crate::entry::Entry;
use crate::tape::Tape;
use std::alloc::{AllocError, Global};

// So many bytes of a tape from a place on, as far as it has them.
fn part(tape: &[u8], from: usize, size: usize) -> &[u8]
    ensures { result.now ≡ take size (drop from tape.now) }
{
    if from > tape.len() {
        return &tape[0..0];
    }
    let rest = &tape[from..];
    if size >= rest.len() {
        return rest;
    }
    &rest[0..size]
}

// The call that an entry of a tape says.
fn call_at<'a>(tape: &'a [u8], entry: Entry) -> Call<'a>
    ensures { (own room : ℕ) → request own room result ≡ asked own room tape.now entry }
{
    match entry {
        Entry::Incremental(from, size) => Call::Incremental(part(tape, from, size)),
        Entry::Join => Call::Join,
        Entry::Leave => Call::Leave,
        Entry::Snapshot(from, size) => Call::Snapshot(part(tape, from, size)),
        Entry::Question(instrument) => Call::Question(instrument),
    }
}

// The bytes that a call brings.
fn bytes_in<'a>(call: Call<'a>) -> &'a [u8]
    ensures { result.now ≡ bytes_in call.entry }
{
    match call {
        Call::Incremental(bytes) => bytes,
        Call::Snapshot(bytes) => bytes,
        _ => b"",
    }
}

// The entry of a call whose bytes lie from a place on.
fn entry_at(call: Call, from: usize) -> Entry
    ensures { result ≡ entry_at from call.entry }
{
    match call {
        Call::Incremental(bytes) => Entry::Incremental(from, bytes.len()),
        Call::Join => Entry::Join,
        Call::Leave => Entry::Leave,
        Call::Snapshot(bytes) => Entry::Snapshot(from, bytes.len()),
        Call::Question(instrument) => Entry::Question(instrument),
    }
}

impl Tape {
    // A tape with no calls.
    pub fn new(heap: Global) -> Tape
        ensures { (own room : ℕ) → taped own room result ≡ [] }
    {
        Tape {
            heap,
            bytes: Vec::new(heap),
            entries: Vec::new(heap),
        }
    }

    // Puts a call behind those on the tape, with a copy of its bytes; where there is no memory the calls stay as they are.
    pub fn add(&mut self, call: Call) -> Result<(), AllocError>
        ensures { (own room : ℕ) → MatchResult result (λ _. taped own room self.new ≡ taped own room self.old ++ request own room call.entry ∷ []) (λ _. taped own room self.new ≡ taped own room self.old) }
    {
        let from = self.bytes.as_slice().len();
        self.entries.reserve(1)?;
        self.bytes.extend_from_slice(bytes_in(call))?;
        self.entries.push_reserved(entry_at(call, from));
        Ok(())
    }

    // The calls on the tape, in order.
    pub fn row(&self) -> Result<Vec<Call>, AllocError>
        ensures { (own room : ℕ) → IfOk result (λ v. requests own room v.items ≡ taped own room self.now) }
    {
        let tape = self.bytes.as_slice();
        let entries = self.entries.as_slice();
        let mut row = Vec::with_capacity(self.heap, entries.len())?;
        for entry in entries {
            row.push_reserved(call_at(tape, *entry));
        }
        Ok(row)
    }

    // Takes all calls off the tape.
    pub fn clear(&mut self)
        ensures { (own room : ℕ) → taped own room self.new ≡ [] }
    {
        self.entries.clear();
        self.bytes.clear();
    }

    // How many calls are on the tape.
    pub fn len(&self) -> usize
        ensures { (own room : ℕ) → length (taped own room self.now) ≡ result }
    {
        self.entries.as_slice().len()
    }

    // How many bytes the calls on the tape brought.
    pub fn size(&self) -> usize
        ensures { result ≡ length self.now.bytes.items }
    {
        self.bytes.as_slice().len()
    }
}
