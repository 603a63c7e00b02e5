ghost use Rattle.std.specs.Prelude.{◌≡◌};
ghost use Rattle.commands.specs.Verbs.{lone_verb, verb_of};

// the first word of a command
#[derive(Clone, Copy, Debug, PartialEq, Eq)]
pub enum Verb {
    Sheet,
    Store,
    Open,
    Shelf,
    Poke,
    Check,
    Inc,
    Join,
    Snap,
    Leave,
    Ask,
    Bids,
    Offers,
    Stats,
    Shelfsum,
}

// The verb of a command that is one word.
pub(crate) fn lone_verb(word: &[u8]) -> Option<Verb>
    ensures { result ≡ lone_verb word.now }
{
    match word {
        b"join" => Some(Verb::Join),
        b"leave" => Some(Verb::Leave),
        b"shelfsum" => Some(Verb::Shelfsum),
        _ => None,
    }
}

// The verb of a command that has more words.
pub(crate) fn worded_verb(word: &[u8]) -> Option<Verb>
    ensures { result ≡ verb_of word.now }
{
    match word {
        b"sheet" => Some(Verb::Sheet),
        b"check" => Some(Verb::Check),
        b"store" => Some(Verb::Store),
        b"open" => Some(Verb::Open),
        b"shelf" => Some(Verb::Shelf),
        b"poke" => Some(Verb::Poke),
        b"inc" => Some(Verb::Inc),
        b"snap" => Some(Verb::Snap),
        b"ask" => Some(Verb::Ask),
        b"bids" => Some(Verb::Bids),
        b"offers" => Some(Verb::Offers),
        b"stats" => Some(Verb::Stats),
        _ => None,
    }
}
