ghost use Rattle.std.specs.Prelude.{◌≡◌, ◌+◌, ◌<◌, ◌≤◌, min, true, false, ◌&&◌, [], ◌∷◌, ◌++◌, length, is_some, IfSome, IfOk, if◌then◌else◌, vec_len, vec_capacity, nat_le, slice_index, slice_set};
ghost use Rattle.layout.specs.Lawful.{lawful, lawful_layout, different, up_to, just, is_stat, stat_count, is_none, find};
ghost use Rattle.layout.specs.Copies.{SaysTheSame};
ghost use Rattle.layout.specs.Reach.{root_reach, entry_reach};

use crate::kinds::{Actions, EntriesLayout, Layout, OrderLayout, Spot};
use crate::reach::{entry_reach, reach_of, root_reach};
use crate::sheet::Sheet;
use crate::template::Template;
use crate::wire::bytes_of;
use std::alloc::{AllocError, Global};

// Whether a field has at most that many bytes, and ends within the longest block.
pub fn is_up_to(most: usize, s: &Spot) -> bool
    ensures { result ≡ up_to most s.now }
{
    (bytes_of(s.width) <= most) & (reach_of(s) <= 1372)
}

// Whether a field has just that many bytes, and ends within the longest block.
pub fn is_just(bytes: usize, s: &Spot) -> bool
    ensures { result ≡ just bytes s.now }
{
    (bytes_of(s.width) == bytes) & (reach_of(s) <= 1372)
}

// Whether each field has a width that its name allows, and ends within the longest block.
pub fn is_lawful(layout: &Layout) -> bool
    ensures { result ≡ lawful_layout layout.now }
{
    match layout {
        Layout::Order(l) => is_order(l),
        Layout::Delete(l) => is_up_to(8, &l.security)
            & (is_just(1, &l.side) & is_up_to(4, &l.position)),
        Layout::Mass(l) => (is_up_to(8, &l.security) & is_just(1, &l.action))
            & (is_just(1, &l.side) & is_up_to(4, &l.position)),
        Layout::Empty(l) => is_up_to(8, &l.security),
        Layout::Stat(l) => is_up_to(8, &l.security) & is_up_to(8, &l.value),
        Layout::Header(l) => (is_up_to(8, &l.security) & is_up_to(4, &l.last))
            & (is_up_to(4, &l.bids) & (is_up_to(4, &l.offers) & is_up_to(4, &l.stats))),
        Layout::Entries(l) => is_entries(l),
    }
}

fn is_order(l: &OrderLayout) -> bool
    ensures { result ≡ lawful_layout (Layout.Order l.now) }
{
    let front = (is_up_to(8, &l.security) & is_just(1, &l.action))
        & (is_just(1, &l.side) & is_up_to(4, &l.position));
    let back = (is_just(8, &l.price) & is_up_to(8, &l.size))
        & (is_up_to(8, &l.oid) & is_up_to(4, &l.firm));
    front & back
}

fn is_entries(l: &EntriesLayout) -> bool
    ensures { result ≡ lawful_layout (Layout.Entries l.now) }
{
    let front = (is_up_to(8, &l.security) & (bytes_of(l.count) <= 2))
        & (is_just(1, &l.side) & is_up_to(4, &l.position));
    let back = (is_just(8, &l.price) & is_up_to(8, &l.size))
        & (is_up_to(8, &l.oid) & is_up_to(4, &l.firm));
    front & back
}

// How many templates are of the kind `stat`.
fn stat_count(templates: &[Template]) -> usize
    ensures { result ≡ stat_count templates.now }
{
    templates.iter().filter(|t| t.layout.is_stat()).count()
}

// Whether the four actions have different numbers.
pub fn are_different(a: Actions) -> bool
    ensures { result ≡ different a }
{
    ((a.new != a.change) & ((a.new != a.topcut) & (a.new != a.bottomcut)))
        & ((a.change != a.topcut) & ((a.change != a.bottomcut) & (a.topcut != a.bottomcut)))
}

// Lets a search start at place `n`, where it started further on.
fn lower(first: &mut [u8; 256], hint: usize, n: usize)
    requires { (hint < 256) × (n < 256) × (length first.old ≡ 256) }
    ensures { first.new ≡ slice_set first.old hint (min (slice_index first.old hint) n) }
{
    first[hint] = usize::from(first[hint]).min(n) as u8;
}

impl Template {
    // The template with that number and layout, where the layout is lawful.
    pub fn new(id: u16, layout: Layout) -> Option<Template>
        ensures lawful { is_some result ≡ lawful_layout layout }
        ensures value { IfSome result (λ t. (t.id ≡ id) × (t.layout ≡ layout)) }
    {
        if !is_lawful(&layout) {
            return None;
        }
        let root = root_reach(&layout) as u16;
        let entry = entry_reach(&layout) as u16;
        Some(Template {
            id,
            layout,
            root,
            entry,
        })
    }
}

impl Sheet {
    // A sheet with no template and the actions 0 to 3; no later call on it allocates.
    pub fn blank(heap: Global) -> Result<Sheet, AllocError>
        ensures { IfOk result (λ s. (s.templates.items ≡ []) × (s.actions ≡ record { new = 0; change = 1; topcut = 2; bottomcut = 3 })) }
    {
        let templates = Vec::with_capacity(heap, 40)?;
        let actions = Actions {
            new: 0,
            change: 1,
            topcut: 2,
            bottomcut: 3,
        };
        Ok(Sheet {
            actions,
            templates,
            first: [255; 256],
        })
    }

    // Drops every template and takes these actions, where they are different; else leaves the sheet as it was.
    pub fn restart(&mut self, actions: Actions) -> bool
        ensures different { result ≡ different actions }
        ensures actions { self.new.actions ≡ (if result then actions else self.old.actions) }
        ensures templates { self.new.templates.items ≡ (if result then [] else self.old.templates.items) }
        ensures refused { result ≡ false → self.new ≡ self.old }
    {
        if !are_different(actions) {
            return false;
        }
        self.actions = actions;
        self.templates.clear();
        true
    }

    // Whether the sheet has room for a template with that layout.
    fn has_room(&self, layout: &Layout) -> bool
        ensures { result ≡ (nat_le (length self.now.templates.items + 1) 40 && nat_le (stat_count self.now.templates.items + (if is_stat layout.now then 1 else 0)) 16) }
    {
        let stats = stat_count(self.templates.as_slice());
        if layout.is_stat() {
            (self.templates.len() < 40) & (stats < 16)
        } else {
            self.templates.len() < 40
        }
    }

    fn is_unlisted(&self, id: u16) -> bool
        ensures { result ≡ is_none (find self.now.templates.items id) }
    {
        self.template(id).is_none()
    }

    fn may_add(&self, t: Template) -> bool
        ensures { result ≡ lawful self.now.actions (self.now.templates.items ++ t ∷ []) }
    {
        self.has_room(&t.layout) & (is_lawful(&t.layout) & self.is_unlisted(t.id))
    }

    // Adds a template at the end, where the sheet stays lawful with it; else leaves the sheet as it was.
    pub fn add(&mut self, t: Template) -> bool
        ensures lawful { result ≡ lawful self.old.actions (self.old.templates.items ++ t ∷ []) }
        ensures actions { self.new.actions ≡ self.old.actions }
        ensures templates { self.new.templates.items ≡ (if result then self.old.templates.items ++ t ∷ [] else self.old.templates.items) }
        ensures refused { result ≡ false → self.new ≡ self.old }
    {
        if !self.may_add(t) {
            return false;
        }
        let n = self.templates.len();
        lower(&mut self.first, usize::from(t.id % 256), n);
        self.templates.push_reserved(t);
        true
    }
}

// A second sheet that says the same, with the same room.
impl Clone for Sheet {
    ghost is_clone = { SaysTheSame };

    fn clone(&self) -> Result<Sheet, AllocError> {
        let mut templates = Vec::with_capacity(*self.templates.allocator(), 40)?;
        templates.extend_from_slice(self.templates.as_slice())?;
        Ok(Sheet {
            actions: self.actions,
            templates,
            first: self.first,
        })
    }
}
