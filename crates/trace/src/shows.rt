use message::values::Order;
use orders::order_store::OrderStore;
use orders::side::Side;
use panel::panel_store::PanelStore;
use std::alloc::AllocError;
use std::fmt;

// what can be shown of a slot: the orders of a side, or the latest numbers of the statistics
#[derive(Clone, Copy)]
pub enum View {
    Side(Side),
    Statistics,
}

impl fmt::Display for View {
    fn fmt<W: fmt::Write>(&self, f: &mut fmt::Formatter<W>) -> fmt::Result {
        match self {
            View::Side(Side::Bid) => write!(f, "bids"),
            View::Side(Side::Offer) => write!(f, "offers"),
            View::Statistics => write!(f, "stats"),
        }
    }
}

// How a store shows what it keeps.
pub trait Shows {
    // Whether the store has what a view shows.
    fn has(&self, view: View) -> bool;

    // Writes what a view shows of a slot: the number of a side's orders and the orders by position, or the latest number of each
    // statistic; nothing where the store has no such thing.
    fn show(&self, slot: usize, view: View, out: &mut String) -> Result<(), AllocError>;
}

// a number that may be missing
#[derive(Clone, Copy)]
struct Number(Option<i64>);

impl fmt::Display for Number {
    fn fmt<W: fmt::Write>(&self, f: &mut fmt::Formatter<W>) -> fmt::Result {
        match self.0 {
            Some(n) => write!(f, "{n}"),
            None => write!(f, "none"),
        }
    }
}

// an order of a side
#[derive(Clone, Copy)]
struct Row(Order);

impl fmt::Display for Row {
    fn fmt<W: fmt::Write>(&self, f: &mut fmt::Formatter<W>) -> fmt::Result {
        let Order {
            price,
            size,
            oid,
            firm,
        } = self.0;
        let price = Number(if price == i64::MIN { None } else { Some(price) });
        write!(f, "{price},{size},{oid},{firm}")
    }
}

impl<'t> Shows for OrderStore<'t> {
    fn has(&self, view: View) -> bool {
        matches!(view, View::Side(_))
    }

    fn show(&self, slot: usize, view: View, out: &mut String) -> Result<(), AllocError> {
        if let View::Side(side) = view {
            let orders = self.side(slot, side);
            let n = orders.len();
            write!(out, " {n}")?;
            for o in orders {
                let row = Row(*o);
                write!(out, " {row}")?;
            }
        }
        Ok(())
    }
}

impl Shows for PanelStore {
    fn has(&self, view: View) -> bool {
        matches!(view, View::Statistics)
    }

    fn show(&self, slot: usize, view: View, out: &mut String) -> Result<(), AllocError> {
        if let View::Statistics = view {
            for template in self.templates() {
                let number = Number(self.number(slot, u64::from(*template)));
                write!(out, " {template}={number}")?;
            }
        }
        Ok(())
    }
}
