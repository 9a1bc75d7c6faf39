//! Revokers for the clients of a script.
use assise_console::stock::Stock;
use assise_lease_table::revoker::{CutFn, Revoker};
use assise_names::limits::MOST_CLIENTS;
use assise_revokers::kinds::{eights, least, whole};
use std::alloc::{AllocError, Global};

/// As many revokers of each kind as clients may be opened.
pub(crate) fn stock_of(alloc: Global) -> Result<Stock<Revoker>, AllocError> {
    let mut stock = Stock::new(alloc);
    for _ in 0..MOST_CLIENTS {
        let least_cut: CutFn = Box::new(alloc, least)?;
        stock.least.push(Revoker::new(least_cut))?;
        let whole_cut: CutFn = Box::new(alloc, whole)?;
        stock.whole.push(Revoker::new(whole_cut))?;
        let eights_cut: CutFn = Box::new(alloc, eights)?;
        stock.eights.push(Revoker::new(eights_cut))?;
    }
    Ok(stock)
}
