ghost use Rattle.std.specs.Prelude.{◌≡◌, ◌+◌, ◌≤◌, true, length, drop, is_ok, IfOk, Some, Err, MatchResult, OnOk};
ghost use Rattle.layout.specs.Reach.{group_reach};
ghost use Rattle.layout.specs.declared.kinds.Layout.TheVariants.{Entries};
ghost use Rattle.packet.specs.Rules.{message_head, head_check, group_check, layout_check, message_check, walk_check, size_check, packet_check, messages, joined};

use crate::fault::FrameFault;
use crate::head::MessageHead;
use layout::kinds::{EntriesLayout, Layout};
use layout::sheet::Sheet;
use layout::template::Template;
use layout::width::Width;
use layout::wire::{bytes_of, number};

// some bytes of a packet, and where they start in it
#[derive(Clone, Copy)]
struct Part<'a> {
    bytes: &'a [u8],
    at: usize,
    ghost near: { at + length bytes.now ≤ 1400 },
}

// The header of the message at the front of a part.
fn head_check(part: &Part) -> Result<MessageHead, FrameFault>
    ensures value { MatchResult result (λ h. (is_ok (head_check part.now.bytes.now part.now.at) ≡ true) × (h ≡ message_head part.now.bytes.now)) (λ e. head_check part.now.bytes.now part.now.at ≡ Err e) }
    ensures bounds { IfOk result (λ h. (12 ≤ h.length) × (h.length ≤ length part.now.bytes.now)) }
{
    let rest = part.bytes;
    let at = part.at;
    let [l0, l1, e0, e1, b0, b1, t0, t1, s0, s1, _, _, ..] = rest else {
        return Err(FrameFault::Torn(at));
    };
    let length = usize::from(u16::from_le_bytes([*l0, *l1]));
    if length < 12 || length > rest.len() {
        return Err(FrameFault::Length(at));
    }
    if u16::from_le_bytes([*e0, *e1]) != 0xEB50 {
        return Err(FrameFault::Encoding(at + 2));
    }
    if u16::from_le_bytes([*s0, *s1]) != 2 {
        return Err(FrameFault::Schema(at + 8));
    }
    Ok(MessageHead {
        length,
        block: u16::from_le_bytes([*b0, *b1]),
        template: u16::from_le_bytes([*t0, *t1]),
    })
}

// The group of a message, which starts at `start`.
fn group_check(
    l: &EntriesLayout,
    reach: u16,
    message: &Part,
    start: usize,
) -> Result<(), FrameFault>
    requires { (start ≤ length message.now.bytes.now) × (reach ≡ group_reach l.now) }
    ensures { result ≡ group_check (Entries l.now) message.now.bytes.now start message.now.at }
{
    let m = message.bytes;
    let fault = FrameFault::Group(message.at + start);
    let size = number(m, start, Width::Two).ok_or(fault)?;
    let count = number(m, start + 2, l.count).ok_or(fault)?;
    let left = m.len() - start - 2 - bytes_of(l.count);
    if size < u64::from(reach) || size.saturating_mul(count) > left as u64 {
        return Err(fault);
    }
    Ok(())
}

// The root block of a message of a listed template, and its group.
fn layout_check(t: &Template, message: &Part, block: u16) -> Result<(), FrameFault>
    ensures { result ≡ layout_check (Some t.now.layout) message.now.bytes.now block message.now.at }
{
    let start = 12 + usize::from(block);
    if message.bytes.len() < start || block < t.root {
        return Err(FrameFault::Block(message.at + 4));
    }
    match &t.layout {
        Layout::Entries(l) => group_check(l, t.entry, message, start),
        _ => Ok(()),
    }
}

// The message at the front of a part; its length.
fn message_check(sheet: &Sheet, part: &Part) -> Result<usize, FrameFault>
    ensures value { result ≡ message_check sheet.now part.now.bytes.now part.now.at }
    ensures bounds { IfOk result (λ n. (12 ≤ n) × (n ≤ length part.now.bytes.now)) }
{
    let MessageHead {
        length,
        block,
        template,
    } = head_check(part)?;
    let message = Part {
        bytes: &part.bytes[..length],
        at: part.at,
    };
    if let Some(t) = sheet.template(template) {
        layout_check(t, &message, block)?;
    }
    Ok(length)
}

fn size_check(n: usize) -> Result<(), FrameFault>
    ensures { result ≡ size_check n }
{
    if n < 16 || n > 1400 {
        return Err(FrameFault::Size);
    }
    if n == 16 {
        return Err(FrameFault::Empty);
    }
    Ok(())
}

// The messages behind the packet's header.
fn walk_check(sheet: &Sheet, bytes: &[u8]) -> Result<(), FrameFault>
    requires { (16 ≤ length bytes.now) × (length bytes.now ≤ 1400) }
    ensures { result ≡ walk_check sheet.now 0 (drop 16 bytes.now) 16 }
{
    let mut at = 16;
    while at < bytes.len() {
        let part = Part {
            bytes: &bytes[at..],
            at,
        };
        at += message_check(sheet, &part)?;
    }
    Ok(())
}

// Whether bytes are a packet by this sheet; else the first rule that they break, and where.
pub fn check(sheet: &Sheet, bytes: &[u8]) -> Result<(), FrameFault>
    ensures answer { result ≡ packet_check sheet.now bytes.now }
    ensures filled { OnOk result (joined (messages sheet.now bytes.now) ≡ drop 16 bytes.now) }
{
    size_check(bytes.len())?;
    walk_check(sheet, bytes)
}
