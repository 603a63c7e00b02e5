// what `--help` prints
pub const TEXT: &str = "books: rebuilds order books from a capture, and writes them as a table

  books SHEET CAPTURE [options]

  SHEET    the layout sheet of the channel: where the fields of its messages lie
  CAPTURE  a classic pcap file

What the capture makes plain need not be given: it is found by a first pass over the
capture, and said on standard error. Where all of the first five options are given,
there is no first pass.

  --channel N                      the channel, 0 to 255
  --version N                      the sequence version, 1 to 65534
  --incremental IP:PORT[,IP:PORT]  the incremental feed, or both feeds A and B
  --snapshot IP:PORT               the snapshot loop; none for no loop
  --watch ID[,ID..]                up to 64 instruments

  --depth D        orders kept on a side, 1 to 1024; 1024 where it is not given
  --out FILE       the table; standard output where it is not given. It is FILE.part
                   until it is whole
  --panel          statistics in the place of orders
  --coverage FILE  a picture (SVG) of where each book was current, recovering and stale
  --progress       tells on standard error how much is read
  --help           this text

A row is written when something that it says of an instrument has changed: its mark or
one of its figures; and first of all one for each instrument. Columns:

  time,heard,instrument,mark,as_of,bid_price,bid_size,bid_orders,bid_total,
  offer_price,offer_size,offer_orders,offer_total,spread

with --panel:  time,heard,instrument,mark,as_of,template,value

A stale book has no figures: those fields are empty. A summary is written to standard
error at the end. The exit status is 0 only where the table is whole.

Example, on the sample that ships here:

  books samples/day.sheet samples/day.pcap --out day.csv
";
