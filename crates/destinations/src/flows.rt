ghost use Rattle.std.specs.Prelude.{◌≡◌, ℕ, ◌<◌, true, false, [], length, replicate, OnOk, IfSome, IsNone, slice_index_or};
ghost use Rattle.packet.specs.Rules.{packet_check, messages};
ghost use Rattle.destinations.specs.Counting.{never};
ghost use Rattle.destinations.specs.Noting.{is_flow, packets_after, kinds_after, reasons_after};

use crate::counts::Counts;
use crate::destination::{Destination, Flow};
use crate::find::{find, found_or_put};
use capture::endpoint::Endpoint;
use layout::sheet::Sheet;
use numbering::stream::Stream;
use packet::checked::Checked;
use packet::head::PacketHead;
use packet::rules::check;
use std::alloc::{AllocError, Global};

fn is_flow(flow: &Flow, channel: u8, version: u16) -> bool
    ensures { result ≡ is_flow flow.now channel version }
{
    flow.channel == channel && flow.version == version
}

impl Destination {
    // An address and port where nothing came yet.
    pub fn new(heap: Global, to: Endpoint) -> Destination
        ensures place { result.to ≡ to }
        ensures nothing { (result.packets ≡ 0) × (result.flows.items ≡ []) × (result.counts.kinds ≡ replicate 8 0) × (result.counts.refusals.all ≡ replicate 8 never) }
    {
        Destination {
            to,
            packets: 0,
            flows: Vec::new(heap),
            last: 0,
            counts: Counts::none(),
        }
    }

    // The place of the flow of a channel and version.
    #[inline(never)]
    fn flow(&self, channel: u8, version: u16) -> Option<usize>
        ensures found { IfSome result (λ i. (i < length self.now.flows.items) × ((d : Flow) → is_flow (slice_index_or self.now.flows.items i d) channel version ≡ true)) }
        ensures absent { IsNone result → (k : ℕ) (d : Flow) → k < length self.now.flows.items → is_flow (slice_index_or self.now.flows.items k d) channel version ≡ false }
    {
        find(
            self.flows.as_slice(),
            self.last,
            |flow| is_flow(flow, channel, version),
        )
    }

    // Notes a packet's number under its channel and version, from the record with that index.
    fn number(&mut self, heap: Global, head: PacketHead, index: u64) -> Result<(), AllocError>
        ensures { (self.new.packets ≡ self.old.packets) × (self.new.counts ≡ self.old.counts) }
    {
        let PacketHead {
            channel,
            version,
            number,
        } = head;
        let found = self.flow(channel, version);
        let place = found_or_put(
            &mut self.flows,
            found,
            || Flow {
                channel,
                version,
                first: index,
                stream: Stream::new(heap),
            },
        )?;
        self.last = place;
        self.flows[place].stream.note(number)
    }

    // Notes a datagram's payload, from the record with that index.
    pub fn note(
        &mut self,
        heap: Global,
        sheet: &Sheet,
        payload: &[u8],
        index: u64,
    ) -> Result<(), AllocError>
        ensures packets { OnOk result (self.new.packets ≡ packets_after (packet_check sheet.now payload.now) self.old.packets) }
        ensures kinds { OnOk result (self.new.counts.kinds ≡ kinds_after (packet_check sheet.now payload.now) self.old.counts.kinds (messages sheet.now payload.now)) }
        ensures reasons { OnOk result (self.new.counts.refusals.all ≡ reasons_after (packet_check sheet.now payload.now) self.old.counts.refusals.all index) }
    {
        match check(sheet, payload) {
            Err(fault) => self.counts.refuse(fault, index),
            Ok(()) => {
                let packet = Checked::new(sheet, payload);
                self.number(heap, packet.head(), index)?;
                self.packets = self.packets.saturating_add(1);
                self.counts.messages(packet.walk());
            }
        }
        Ok(())
    }
}
