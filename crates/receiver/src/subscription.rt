use layout::sheet::Sheet;
use settling::watch::Watch;

// what a receiver is opened with: the channel and its version, the receiver's own number, the watched instruments and the sheet
#[derive(Drop)]
pub struct Subscription {
    pub channel: u8,
    pub version: u16,
    pub own: u64,
    pub watch: Watch,
    pub sheet: Sheet,
}
