ghost use Rattle.std.specs.Prelude.{◌≡◌, false, replicate, None, slice_index_or};
ghost use Rattle.options.specs.Words.{flag_place, word_of};
ghost use Rattle.options.specs.Taking.{place_of, is_given, plain_setting, word_answer, given_after, raised_after, awaited_after};

use crate::fault::OptionFault;
use crate::options::Options;
use crate::setting::{Flag, Setting, Word};
use crate::words::word_of;

impl Options {
    // No word yet.
    pub fn new() -> Options
        ensures { (result.given ≡ replicate 10 None) × (result.raised ≡ replicate 3 false) × (result.awaited ≡ None) }
    {
        Options {
            given: [None; 10],
            raised: [false; 3],
            awaited: None,
        }
    }

    // The place of the word that is a setting's value, where it is given.
    pub fn place_of(&self, setting: Setting) -> Option<usize>
        ensures { result ≡ place_of self.now.given setting }
    {
        self.given[setting.place()]
    }

    // Whether a flag is raised.
    pub fn is_raised(&self, flag: Flag) -> bool
        ensures { result ≡ slice_index_or self.now.raised (flag_place flag) false }
    {
        self.raised[flag.place()]
    }

    fn is_given(&self, setting: Setting) -> bool
        ensures { result ≡ is_given self.now.given setting }
    {
        self.place_of(setting).is_some()
    }

    // The setting that a word gives a value to which names nothing.
    fn plain_setting(&self) -> Option<Setting>
        ensures { result ≡ plain_setting self.now.given }
    {
        if !self.is_given(Setting::Sheet) {
            return Some(Setting::Sheet);
        }
        if !self.is_given(Setting::Capture) {
            return Some(Setting::Capture);
        }
        None
    }

    // Takes the word at a place, counted from 1: the value of the setting that is awaited, or what it stands for itself. A word that
    // is refused changes nothing.
    pub fn take(&mut self, place: usize, word: &[u8]) -> Result<(), OptionFault>
        ensures answer { result ≡ word_answer self.old.given self.old.awaited place (word_of word.now) }
        ensures given { self.new.given ≡ given_after self.old.given self.old.awaited place (word_of word.now) }
        ensures raised { self.new.raised ≡ raised_after self.old.raised self.old.awaited (word_of word.now) }
        ensures awaited { self.new.awaited ≡ awaited_after self.old.given self.old.awaited (word_of word.now) }
    {
        if let Some(setting) = self.awaited {
            self.awaited = None;
            self.given[setting.place()] = Some(place);
            return Ok(());
        }
        match word_of(word) {
            Word::Names(setting) => {
                if self.is_given(setting) {
                    return Err(OptionFault::Twice(place));
                }
                self.awaited = Some(setting);
                Ok(())
            }
            Word::Raises(flag) => {
                self.raised[flag.place()] = true;
                Ok(())
            }
            Word::Unknown => Err(OptionFault::Unknown(place)),
            Word::Plain => match self.plain_setting() {
                Some(setting) => {
                    self.given[setting.place()] = Some(place);
                    Ok(())
                }
                None => Err(OptionFault::Extra(place)),
            },
        }
    }
}
