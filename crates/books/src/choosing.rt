use crate::asked::{Asked, Loop};
use crate::course::{Course, Feeds};
use crate::finding::Finding;
use anyhow::anyhow;
use capture::endpoint::Endpoint;
use destinations::destination::Flow;
use destinations::feeds::{Feed, feed_of, nearly_all};

const ASK: &str = "the capture does not make it plain what to rebuild; give the option named above";

// what is asked for, and what a first pass over the capture found
#[derive(Clone, Copy)]
struct Choosing<'c> {
    rt: &'c HostRuntime,
    asked: &'c Asked,
    finding: &'c Finding<'c>,
}

// one channel and version, with its packets and the record of the first of them
#[derive(Clone, Copy)]
struct Stream {
    channel: u8,
    version: u16,
    packets: u64,
    first: u64,
}

// Adds a destination's packets by channel and version, but for those that were not asked for.
fn add_streams(streams: &mut Vec<Stream>, asked: &Asked, flows: &[Flow]) -> anyhow::Result<()> {
    for flow in flows {
        let packets = flow.stream.packets();
        if asked.channel.is_some_and(|c| c != flow.channel)
            || asked.version.is_some_and(|v| v != flow.version)
        {
            continue;
        }
        let known = streams
            .iter_mut()
            .find(|s| s.channel == flow.channel && s.version == flow.version);
        if let Some(s) = known {
            s.packets = s.packets.saturating_add(packets);
            s.first = s.first.min(flow.first);
        } else {
            streams.push(Stream {
                channel: flow.channel,
                version: flow.version,
                packets,
                first: flow.first,
            })?;
        }
    }
    Ok(())
}

// Says which channels and versions there are.
fn unclear(rt: &HostRuntime, streams: &[Stream]) -> anyhow::Result<()> {
    eprintln!(rt; "books: the incremental packets are of several channels or versions:")?;
    for s in streams {
        let Stream {
            channel,
            version,
            packets,
            first,
        } = *s;
        eprintln!(rt;
            "  channel {channel}, version {version}: {packets} packets, the first in record {first}"
        )?;
    }
    eprintln!(rt;
        "where the version changes, cut the capture there, or give --version; else give --channel"
    )?;
    Err(anyhow!(ASK))
}

impl<'c> Choosing<'c> {
    // Says why the capture does not make it plain what to rebuild, and lists its destinations.
    fn ask<T>(&self, why: &str) -> anyhow::Result<T> {
        eprintln!(self.rt; "books: {why}")?;
        self.finding.list(self.rt)?;
        Err(anyhow!(ASK))
    }

    // Says on standard error what was found.
    fn say(&self, what: &str, endpoint: Endpoint) -> anyhow::Result<()> {
        eprintln!(self.rt; "found: {what} {endpoint}")?;
        Ok(())
    }

    // The destinations that are a feed of this kind.
    fn all_of(&self, feed: Feed) -> anyhow::Result<Vec<Endpoint>> {
        let found = self
            .finding
            .table
            .destinations
            .iter()
            .filter(|d| feed_of(&d.counts) == feed)
            .map(|d| d.to)
            .collect(self.rt.alloc())?;
        Ok(found)
    }

    // The incremental feeds: those asked for, or the one or two of the capture.
    fn feeds(&self) -> anyhow::Result<Feeds> {
        if let Some(feeds) = self.asked.feeds {
            return Ok(feeds);
        }
        let mut found = self.all_of(Feed::Incremental)?;
        if found.is_empty() {
            found = self.all_of(Feed::Statistics)?;
        }
        match found.as_slice() {
            [first] => {
                self.say("--incremental", *first)?;
                Ok(Feeds {
                    first: *first,
                    second: None,
                })
            }
            [first, second] => {
                self.say("--incremental, feed A", *first)?;
                self.say("--incremental, feed B", *second)?;
                Ok(Feeds {
                    first: *first,
                    second: Some(*second),
                })
            }
            _ => self.ask("one or two incremental feeds are wanted; name them with --incremental"),
        }
    }

    // The snapshot loop: the one asked for, or the one of the capture, if it has one.
    fn snapshot(&self) -> anyhow::Result<Option<Endpoint>> {
        match self.asked.snapshot {
            Loop::Absent => return Ok(None),
            Loop::At(endpoint) => return Ok(Some(endpoint)),
            Loop::Unsaid => {}
        }
        match self.all_of(Feed::Snapshot)?.as_slice() {
            [] => {
                eprintln!(self.rt;
                    "found: no snapshot loop, so that a book that gets stale stays stale"
                )?;
                Ok(None)
            }
            [found] => {
                self.say("--snapshot", *found)?;
                Ok(Some(*found))
            }
            _ => self.ask(
                "the capture has several snapshot loops; name one with --snapshot, or none",
            ),
        }
    }

    // Says that nothing came to a destination that was asked for.
    fn no_such(&self, endpoint: Endpoint) -> anyhow::Result<()> {
        eprintln!(self.rt; "books: no packet of the capture was sent to {endpoint}")?;
        self.finding.list(self.rt)?;
        Err(anyhow!("a destination is wrong; take it from the list above"))
    }

    // The channel and version that nearly all packets of the feeds have.
    fn main_stream(&self, feeds: Feeds) -> anyhow::Result<(u8, u16)> {
        let mut streams = Vec::new(self.rt.alloc());
        for d in self.finding.table.destinations.as_slice() {
            if d.to == feeds.first || Some(d.to) == feeds.second {
                add_streams(&mut streams, self.asked, d.flows.as_slice())?;
            }
        }
        let none = Stream {
            channel: self.asked.channel.unwrap_or(0),
            version: self.asked.version.unwrap_or(0),
            packets: 0,
            first: 0,
        };
        let all = streams
            .iter()
            .fold(0u64, |sum, s| sum.saturating_add(s.packets));
        let Stream {
            channel,
            version,
            packets,
            first: _,
        } = streams.iter().fold(
            none,
            |best, s| if s.packets > best.packets { *s } else { best },
        );
        if !nearly_all(packets, all) {
            unclear(self.rt, streams.as_slice())?;
        }
        eprintln!(self.rt;
            "found: --channel {channel} --version {version}, {packets} of {all} packets"
        )?;
        Ok((channel, version))
    }

    // The instruments: those asked for, or all that the packets of these destinations name.
    fn instruments(&self, endpoints: &[Option<Endpoint>]) -> anyhow::Result<Vec<u64>> {
        if !self.asked.watch.is_empty() {
            return Ok(self.asked.watch.clone()?);
        }
        let mut ids = Vec::new(self.rt.alloc());
        for endpoint in endpoints.iter().flatten() {
            for id in self.finding.names_at(*endpoint) {
                if !ids.contains(id) {
                    ids.push(*id)?;
                }
            }
        }
        if ids.is_empty() {
            eprintln!(self.rt;
                "books: no packet names an instrument; does the sheet fit the channel?"
            )?;
            return Err(anyhow!(ASK));
        }
        if ids.len() > 64 {
            eprintln!(self.rt;
                "books: the packets name more than 64 instruments; choose up to 64 with --watch"
            )?;
            return Err(anyhow!(ASK));
        }
        let mut line = String::new(self.rt.alloc());
        for id in &ids {
            if !line.is_empty() {
                line.push_str(",")?;
            }
            write!(&mut line, "{id}")?;
        }
        eprintln!(self.rt; "found: --watch {line}")?;
        Ok(ids)
    }
}

// What to rebuild: what is asked for, and what the capture makes plain.
pub fn choose<'c>(
    rt: &'c HostRuntime,
    asked: &'c Asked,
    finding: &'c Finding<'c>,
) -> anyhow::Result<Course> {
    let choosing = Choosing { rt, asked, finding };
    let feeds = choosing.feeds()?;
    let snapshot = choosing.snapshot()?;
    let endpoints = [Some(feeds.first), feeds.second, snapshot];
    for endpoint in endpoints.iter().flatten() {
        if finding.place_of(*endpoint).is_none() {
            choosing.no_such(*endpoint)?;
        }
    }
    let (channel, version) = choosing.main_stream(feeds)?;
    let watch = choosing.instruments(&endpoints)?;
    Ok(Course {
        channel,
        version,
        feeds,
        snapshot,
        watch,
    })
}

// What to rebuild where all of it is asked for.
pub fn given(asked: &Asked) -> anyhow::Result<Option<Course>> {
    let snapshot = match asked.snapshot {
        Loop::Unsaid => return Ok(None),
        Loop::Absent => None,
        Loop::At(endpoint) => Some(endpoint),
    };
    match (asked.channel, asked.version, asked.feeds) {
        (Some(channel), Some(version), Some(feeds)) if !asked.watch.is_empty() => {
            Ok(Some(Course {
                channel,
                version,
                feeds,
                snapshot,
                watch: asked.watch.clone()?,
            }))
        }
        _ => Ok(None),
    }
}
