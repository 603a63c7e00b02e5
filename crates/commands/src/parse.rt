ghost use Rattle.std.specs.Prelude.{◌≡◌};
ghost use Rattle.std.specs.Option.{option_map};
ghost use Rattle.commands.specs.Spoken.{said, lone, worded, store_of, table_of, poke_of, open_of, channel_of, version_of, spoken};

use crate::command::Command;
use crate::number::{decimal, decimal_in};
use crate::verb::{Verb, lone_verb, worded_verb};
use sheet_text::text::cut;

// DEPTH TABLE
fn table<'a>(text: &'a [u8]) -> Option<Command<'a>>
    ensures { option_map said result ≡ table_of text.now }
{
    let (depth, orders) = cut(text, b' ')?;
    let depth = decimal(depth)?;
    let orders = decimal(orders)?;
    Some(Command::StoreOrders(depth, orders))
}

// panel, or orders DEPTH TABLE
fn store<'a>(text: &'a [u8]) -> Option<Command<'a>>
    ensures { option_map said result ≡ store_of text.now }
{
    match cut(text, b' ') {
        None if text == b"panel".as_slice() => Some(Command::StorePanel),
        Some((b"orders", rest)) => table(rest),
        _ => None,
    }
}

// AT HEX
fn poke<'a>(text: &'a [u8]) -> Option<Command<'a>>
    ensures { option_map said result ≡ poke_of text.now }
{
    let (at, hex) = cut(text, b' ')?;
    let at = decimal(at)?;
    Some(Command::Poke(at, hex))
}

// VERSION, or VERSION ID ID ..
fn version<'a>(own: u64, channel: u8, text: &'a [u8]) -> Option<Command<'a>>
    ensures { option_map said result ≡ version_of own channel text.now }
{
    match cut(text, b' ') {
        None => {
            let version = decimal_in(text)?;
            Some(Command::Open(own, channel, version, None))
        }
        Some((word, ids)) => {
            let version = decimal_in(word)?;
            Some(Command::Open(own, channel, version, Some(ids)))
        }
    }
}

// CHANNEL and what follows.
fn channel<'a>(own: u64, text: &'a [u8]) -> Option<Command<'a>>
    ensures { option_map said result ≡ channel_of own text.now }
{
    let (word, rest) = cut(text, b' ')?;
    let channel = decimal_in(word)?;
    version(own, channel, rest)
}

// RECEIVER and what follows.
fn opening<'a>(text: &'a [u8]) -> Option<Command<'a>>
    ensures { option_map said result ≡ open_of text.now }
{
    let (word, rest) = cut(text, b' ')?;
    let own = decimal(word)?;
    channel(own, rest)
}

// A command that is one word.
fn alone<'a>(v: Verb) -> Option<Command<'a>>
    ensures { option_map said result ≡ lone v }
{
    match v {
        Verb::Join => Some(Command::Join),
        Verb::Leave => Some(Command::Leave),
        Verb::Shelfsum => Some(Command::Shelfsum),
        _ => None,
    }
}

// A command with the words behind its first.
fn with_words<'a>(v: Verb, rest: &'a [u8]) -> Option<Command<'a>>
    ensures { option_map said result ≡ worded v rest.now }
{
    match v {
        Verb::Sheet => Some(Command::Sheet(rest)),
        Verb::Store => store(rest),
        Verb::Open => opening(rest),
        Verb::Shelf => Some(Command::Shelf(decimal(rest)?)),
        Verb::Poke => poke(rest),
        Verb::Check => Some(Command::Check(rest)),
        Verb::Inc => Some(Command::Inc(rest)),
        Verb::Snap => Some(Command::Snap(rest)),
        Verb::Ask => Some(Command::Ask(decimal(rest)?)),
        Verb::Bids => Some(Command::Bids(decimal(rest)?)),
        Verb::Offers => Some(Command::Offers(decimal(rest)?)),
        Verb::Stats => Some(Command::Stats(decimal(rest)?)),
        Verb::Join | Verb::Leave | Verb::Shelfsum => None,
    }
}

// The command that a line says, if it is one.
pub fn parse<'a>(line: &'a [u8]) -> Option<Command<'a>>
    ensures { option_map said result ≡ spoken line.now }
{
    match cut(line, b' ') {
        None => alone(lone_verb(line)?),
        Some((word, rest)) => with_words(worded_verb(word)?, rest),
    }
}
