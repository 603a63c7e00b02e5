// a command of a trace; a word of hexadecimal digits stands as it was written, and so do the instruments of an opening
#[derive(Clone, Copy)]
pub enum Command<'a> {
    Sheet(&'a [u8]),
    StoreOrders(u64, u64),
    StorePanel,
    Open(u64, u8, u16, Option<&'a [u8]>),
    Shelf(u64),
    Poke(u64, &'a [u8]),
    Check(&'a [u8]),
    Inc(&'a [u8]),
    Join,
    Snap(&'a [u8]),
    Leave,
    Ask(u64),
    Bids(u64),
    Offers(u64),
    Stats(u64),
    Shelfsum,
}
