//! A seat at each of the six tables of a desk.

use crate::lock::RestingSeat;
use control_book::ControlBook;
use reassembly_book::ReassemblyBook;
use send_book::SendBook;

/// A seat at each of the six tables, none of which waits or has a book.
#[derive(Drop)]
pub(crate) struct Seats {
    pub(crate) send_a: RestingSeat<SendBook>,
    pub(crate) send_b: RestingSeat<SendBook>,
    pub(crate) reassembly_a: RestingSeat<ReassemblyBook>,
    pub(crate) reassembly_b: RestingSeat<ReassemblyBook>,
    pub(crate) control_a: RestingSeat<ControlBook>,
    pub(crate) control_b: RestingSeat<ControlBook>,
}
