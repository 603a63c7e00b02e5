use crate::output::Output;
use crate::told::{Stamp, Told};
use figures::figures::{Figures, SideFigures, Top};
use orders::order_store::OrderStore;
use orders::side::Side;
use panel::panel_store::PanelStore;
use recovery::answers::Sign;
use std::fmt;

// How a store's values become rows.
pub trait Tells {
    // The names of the columns.
    fn columns(&self) -> &'static str;

    // Writes the rows that are due of the book at a slot, which stands as the stamp says.
    fn tell(
        &self,
        slot: usize,
        stamp: &Stamp,
        told: &mut Told,
        out: &mut Output,
    ) -> anyhow::Result<()>;
}

// the columns of a side
#[derive(Clone, Copy)]
struct SideColumns(SideFigures);

// the columns of a book
#[derive(Clone, Copy)]
struct Columns(Figures);

impl fmt::Display for SideColumns {
    fn fmt<W: fmt::Write>(&self, f: &mut fmt::Formatter<W>) -> fmt::Result {
        let SideFigures { top, orders, total } = self.0;
        match top {
            Some(
                Top {
                    price: Some(price),
                    size,
                },
            ) => write!(f, ",{price},{size}")?,
            Some(Top { price: None, size }) => write!(f, ",,{size}")?,
            None => write!(f, ",,")?,
        }
        // a number of 64 bits is written faster
        match u64::try_from(total) {
            Ok(total) => write!(f, ",{orders},{total}"),
            Err(_) => write!(f, ",{orders},{total}"),
        }
    }
}

impl fmt::Display for Columns {
    fn fmt<W: fmt::Write>(&self, f: &mut fmt::Formatter<W>) -> fmt::Result {
        let bid = SideColumns(self.0.bid);
        let offer = SideColumns(self.0.offer);
        match self.0.spread() {
            Some(spread) => write!(f, "{bid}{offer},{spread}"),
            None => write!(f, "{bid}{offer},"),
        }
    }
}

impl<'t> Tells for OrderStore<'t> {
    fn columns(&self) -> &'static str {
        "time,heard,instrument,mark,as_of,bid_price,bid_size,bid_orders,bid_total,offer_price,offer_size,offer_orders,offer_total,spread\n"
    }

    fn tell(
        &self,
        slot: usize,
        stamp: &Stamp,
        told: &mut Told,
        out: &mut Output,
    ) -> anyhow::Result<()> {
        if stamp.sign == Sign::Stale {
            if stamp.marked {
                out.row(format_args!("{stamp},,,,,,,,,"))?;
            }
            told.figures = None;
            return Ok(());
        }
        let figures = Figures::of(self.side(slot, Side::Bid), self.side(slot, Side::Offer));
        if stamp.marked || figures.is_new(told.figures) {
            let columns = Columns(figures);
            out.row(format_args!("{stamp}{columns}"))?;
            told.figures = Some(figures);
        }
        Ok(())
    }
}

impl Tells for PanelStore {
    fn columns(&self) -> &'static str {
        "time,heard,instrument,mark,as_of,template,value\n"
    }

    fn tell(
        &self,
        slot: usize,
        stamp: &Stamp,
        told: &mut Told,
        out: &mut Output,
    ) -> anyhow::Result<()> {
        if stamp.marked {
            out.row(format_args!("{stamp},,"))?;
        }
        if stamp.sign == Sign::Stale {
            told.values.fill(None);
            return Ok(());
        }
        for (template, last) in self.templates().iter().zip(told.values.iter_mut()) {
            let value = self.number(slot, u64::from(*template));
            if *last != value {
                match value {
                    Some(value) => out.row(format_args!("{stamp},{template},{value}"))?,
                    None => out.row(format_args!("{stamp},{template},"))?,
                }
                *last = value;
            }
        }
        Ok(())
    }
}
