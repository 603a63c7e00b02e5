ghost use Rattle.std.specs.Prelude.{◌≡◌, ◌<◌, ℕ, List, length, map, slice_set, slice_index_or, if◌then◌else◌, nat_lt};
ghost use Rattle.message.specs.Meaning.{number};
ghost use Rattle.message.specs.Views.{meant};
ghost use Rattle.store.specs.Calls.{with_piece};
ghost use Rattle.panel.specs.Numbers.{Panel, noted, no_numbers};
ghost use Rattle.panel.specs.Kind.{panel, fits_panel};
ghost use Rattle.panel.specs.Image.{PanelImage};
ghost use Rattle.panel.specs.ImageLaw.{panel_image, panel-sound};
ghost use Rattle.panel.specs.Model.{templates_of, panel_of, setup_of, model_of};

use crate::listed::Listed;
use crate::numbers::Numbers;
use crate::panel_store::PanelStore;
use message::fields::{delete_fields, entry_fields, mass_fields, order_fields, stat_fields};
use message::message::{Message, Piece};
use message::values::{HeaderFields, StatFields};
use store::store::Store;

// Whether a message fits a panel: it misses no field.
fn fits_message(m: &Message) -> bool
    ensures { result ≡ fits_panel (meant m.now) }
{
    match *m {
        Message::Order(l, part) => order_fields(l, part).is_some(),
        Message::Delete(l, part) => delete_fields(l, part).is_some(),
        Message::Mass(l, part) => mass_fields(l, part).is_some(),
        Message::Stat(l, part) => stat_fields(l, part).is_some(),
        Message::Empty(_, _) => true,
        Message::Header(_, _) => true,
        Message::Entries(_, _) => true,
        Message::Other(_) => true,
    }
}

// Notes a statistic in the panel at a place.
fn note_at(panels: &mut [Numbers], slot: usize, listed: &Listed, f: &StatFields)
    requires { slot < length panels.old }
    ensures { map (panel_of listed.now) panels.new ≡ slice_set (map (panel_of listed.now) panels.old) slot (noted (templates_of listed.now) (slice_index_or (map (panel_of listed.now) panels.old) slot (no_numbers (templates_of listed.now))) f.now.template f.now.value) }
{
    panels[slot].note(listed, f);
}

impl Store for PanelStore {
    ghost Value = { Panel };

    ghost Owed = { ℕ };

    ghost Setup = { List ℕ };

    ghost setup = { setup_of };

    ghost kind = { panel };

    ghost Image = { PanelImage };

    ghost model = { model_of };

    ghost image = { panel_image };

    ghost sound = { panel-sound };

    fn slots(&self) -> usize {
        64
    }

    fn fits_at(&self, _: usize, m: &Message) -> bool {
        fits_message(m)
    }

    fn apply_at(&mut self, slot: usize, m: &Message) -> bool {
        match *m {
            Message::Stat(l, part) => match stat_fields(l, part) {
                Some(f) => {
                    let listed = self.listed;
                    note_at(&mut self.panels, slot, &listed, &f);
                    true
                }
                None => false,
            },
            _ => fits_message(m),
        }
    }

    fn freshen_at(&mut self, slot: usize) {
        self.panels[slot] = Numbers::none();
    }

    fn adopt_at(&mut self, slot: usize) {
        self.panels[slot] = self.staged;
    }

    fn fits_header(&self, h: &HeaderFields) -> bool {
        h.stats <= self.listed.count as u64
    }

    fn begin(&mut self, h: &HeaderFields) {
        self.staged = Numbers::none();
        self.owed = h.stats as usize;
    }

    fn fits_piece(&self, p: &Piece) -> bool {
        match *p {
            Piece::Entry(l, part) => entry_fields(l, part).is_some(),
            Piece::Stat(l, part) => stat_fields(l, part).is_some() && 0 < self.owed,
        }
    }

    fn take(&mut self, p: &Piece) -> bool {
        match *p {
            Piece::Entry(_, _) => self.fits_piece(p),
            Piece::Stat(l, part) => match stat_fields(l, part) {
                Some(f) => self.take_number(&f),
                None => false,
            },
        }
    }

    fn whole(&self) -> bool {
        self.owed == 0
    }
}

impl PanelStore {
    // Adds a number to the staged panel while one is owed.
    fn take_number(&mut self, f: &StatFields) -> bool
        ensures fits { result ≡ nat_lt 0 self.old.owed }
        ensures after { model_of self.new ≡ (if result then with_piece (panel (setup_of self.old)) (model_of self.old) (number f.now) else model_of self.old) }
        ensures stays { setup_of self.new ≡ setup_of self.old }
    {
        if self.owed == 0 {
            return false;
        }
        let listed = self.listed;
        self.staged.note(&listed, f);
        self.owed -= 1;
        true
    }
}
