ghost use Rattle.std.specs.Prelude.{◌≡◌, ◌+◌, ◌<◌, ◌≤◌, true, [], ◌∷◌, length, drop, IfSome, is_ok, Some, None, MatchOption};
ghost use Rattle.packet.specs.Rules.{packet_check, messages_from, messages, message_head, packet_head};
ghost use Rattle.message.specs.Views.{view};

use crate::checked::{Checked, Walk};
use crate::head::{MessageHead, PacketHead};
use layout::kinds::Layout;
use layout::sheet::Sheet;
use layout::template::Template;
use message::message::Message;

impl<'a, 's> Checked<'a, 's> {
    // A packet that `check` has passed.
    pub fn new(sheet: &'s Sheet, bytes: &'a [u8]) -> Checked<'a, 's>
        requires { is_ok (packet_check sheet.now bytes.now) ≡ true }
        ensures { (result.sheet.now ≡ sheet.now) × (result.bytes.now ≡ bytes.now) }
    {
        Checked { bytes, sheet }
    }

    // The packet's channel, version and sequence number.
    pub fn head(&self) -> PacketHead
        ensures { result ≡ packet_head self.now.bytes.now }
    {
        let [channel, _, v0, v1, n0, n1, n2, n3, _rest @ ..] = self.bytes else {
            return unreachable();
        };
        PacketHead {
            channel: *channel,
            version: u16::from_le_bytes([*v0, *v1]),
            number: u32::from_le_bytes([*n0, *n1, *n2, *n3]),
        }
    }

    // A walk over the packet's messages, from the first.
    pub fn walk(&self) -> Walk<'a, 's>
        ensures { (result.sheet.now ≡ self.now.sheet.now) × (result.rest.now ≡ drop 16 self.now.bytes.now) × (result.at ≡ 16) }
    {
        let bytes = self.bytes;
        Walk {
            rest: &bytes[16..],
            at: 16,
            sheet: self.sheet,
        }
    }
}

// The message's part by its kind.
fn told<'a, 's>(template: Option<&'s Template>, part: &'a [u8]) -> Message<'a, 's>
    ensures { ((view result).bytes ≡ part.now) × MatchOption template.entry ((view result).layout ≡ None) (λ t. (view result).layout ≡ Some t.now.layout) }
{
    let Some(t) = template else {
        return Message::Other(part);
    };
    match &t.layout {
        Layout::Order(l) => Message::Order(l, part),
        Layout::Delete(l) => Message::Delete(l, part),
        Layout::Mass(l) => Message::Mass(l, part),
        Layout::Empty(l) => Message::Empty(l, part),
        Layout::Stat(l) => Message::Stat(l, part),
        Layout::Header(l) => Message::Header(l, part),
        Layout::Entries(l) => Message::Entries(l, part),
    }
}

// What the header at the front of `rest` says.
pub(crate) fn head_of(rest: &[u8]) -> Option<MessageHead>
    ensures { MatchOption result (length rest.now < 12) (λ h. (12 ≤ length rest.now) × (h ≡ message_head rest.now)) }
{
    let [l0, l1, _, _, b0, b1, t0, t1, _, _, _, _, ..] = rest else {
        return None;
    };
    Some(MessageHead {
        length: usize::from(u16::from_le_bytes([*l0, *l1])),
        block: u16::from_le_bytes([*b0, *b1]),
        template: u16::from_le_bytes([*t0, *t1]),
    })
}

impl<'a, 's> Walk<'a, 's> {
    // Where the next message starts in the packet.
    pub fn at(&self) -> usize
        ensures { result ≡ self.now.at }
    {
        self.at
    }

    // The next message, or None behind the last.
    pub fn next(&mut self) -> Option<Message<'a, 's>>
        ensures sheet { self.new.sheet.now ≡ self.old.sheet.now }
        ensures step { MatchOption result (messages_from self.old.sheet.now 0 self.old.rest.now ≡ []) (λ m. messages_from self.old.sheet.now 0 self.old.rest.now ≡ view m ∷ messages_from self.old.sheet.now 0 self.new.rest.now) }
        ensures place { self.new.at + length self.new.rest.now ≡ self.old.at + length self.old.rest.now }
    {
        let rest = self.rest;
        let sheet = self.sheet;
        let MessageHead {
            length,
            block: _,
            template,
        } = head_of(rest)?;
        let (part, after) = rest.split_at(length);
        self.rest = after;
        self.at += length;
        Some(told(sheet.template(template), part))
    }
}
