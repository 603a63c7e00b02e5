// packets one behind the other: how many, and the highest numbers heard at the first and at the last of them
#[derive(Clone, Copy, Debug, PartialEq, Eq)]
pub struct Stretch {
    pub packets: u64,
    pub from: u64,
    pub to: u64,
}

// at how many packets a book was current, recovering and stale, the packets at which it has been stale up to now, and the longest
// such stretch
#[derive(Clone, Copy, Debug, Default, PartialEq, Eq)]
pub struct Share {
    pub current: u64,
    pub recovering: u64,
    pub stale: u64,
    pub now_stale: Option<Stretch>,
    pub longest: Option<Stretch>,
}
