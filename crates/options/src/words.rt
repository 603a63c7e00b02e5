ghost use Rattle.std.specs.Prelude.{◌≡◌, ◌<◌};
ghost use Rattle.options.specs.Words.{setting_place, flag_place, setting_of, flag_of, word_of};

use crate::setting::{Flag, Setting, Word};

impl Setting {
    // The setting's place.
    pub fn place(self) -> usize
        ensures value { result ≡ setting_place self }
        ensures within { result < 10 }
    {
        self as usize
    }
}

impl Flag {
    // The flag's place.
    pub fn place(self) -> usize
        ensures value { result ≡ flag_place self }
        ensures within { result < 3 }
    {
        self as usize
    }
}

// The setting that a word names.
fn setting_of(word: &[u8]) -> Option<Setting>
    ensures { result ≡ setting_of word.now }
{
    match word {
        b"--channel" => Some(Setting::Channel),
        b"--version" => Some(Setting::Version),
        b"--incremental" => Some(Setting::Incremental),
        b"--snapshot" => Some(Setting::Snapshot),
        b"--watch" => Some(Setting::Watch),
        b"--depth" => Some(Setting::Depth),
        b"--out" => Some(Setting::Out),
        b"--coverage" => Some(Setting::Coverage),
        _ => None,
    }
}

// The flag that a word raises.
fn flag_of(word: &[u8]) -> Option<Flag>
    ensures { result ≡ flag_of word.now }
{
    match word {
        b"--panel" => Some(Flag::Panel),
        b"--progress" => Some(Flag::Progress),
        b"--help" | b"-h" => Some(Flag::Help),
        _ => None,
    }
}

// What a word stands for.
pub fn word_of(word: &[u8]) -> Word
    ensures { result ≡ word_of word.now }
{
    if let Some(setting) = setting_of(word) {
        return Word::Names(setting);
    }
    if let Some(flag) = flag_of(word) {
        return Word::Raises(flag);
    }
    if word.starts_with(b"--") {
        return Word::Unknown;
    }
    Word::Plain
}
