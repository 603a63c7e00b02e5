use crate::session::Session;
use packet::checked::Checked;
use packet::head::PacketHead;
use recovery::answers::Standing;
use replay::call::Answer;
use std::alloc::AllocError;

// The packet's header and its messages, by start and kind.
pub fn list_packet(packet: &Checked, out: &mut String) -> Result<(), AllocError> {
    let PacketHead {
        channel,
        version,
        number,
    } = packet.head();
    write!(out, "packet {channel} {version} {number}")?;
    let mut walk = packet.walk();
    let mut at = walk.at();
    while let Some(m) = walk.next() {
        match m.kind() {
            Some(kind) => write!(out, " {at}:{kind}")?,
            None => write!(out, " {at}:other")?,
        }
        at = walk.at();
    }
    writeln!(out, "")
}

// Writes what a call answered.
pub fn tell(answer: Answer, session: &mut Session) -> Result<(), AllocError> {
    let out = &mut session.out;
    match answer {
        Answer::Taken => writeln!(out, "taken"),
        Answer::Repeat => writeln!(out, "repeat"),
        Answer::Adopted(adoptions) => writeln!(out, "taken {adoptions}"),
        Answer::Joined => writeln!(out, "joined"),
        Answer::Left => writeln!(out, "left"),
        Answer::Standing(
            Standing {
                sign,
                number,
                heard,
            },
        ) => writeln!(out, "{sign} {number} {heard}"),
        Answer::Refused(fault) => session.refuse(fault),
    }
}
