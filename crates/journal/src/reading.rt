//! Reading an order.

ghost use Rattle.std.specs.Prelude.{drop, IfOk, IfErr};
ghost use Rattle.journal.specs.OrderText.{IsOrder};
ghost use Rattle.journal.specs.OrderFaults.{IsRefusedOrNoMemory};

use crate::cursor::Cursor;
use crate::fault::OrderError;
use crate::order::Order;
use fr_base::Fresh;
use std::alloc::Global;

/// The order that the bytes from byte `from` to the end are the text of; no bytes, as where `from` is the end or past it, are
/// an order of no lines. `BadOrder` comes exactly where they are no order's text, and names the byte where the first line
/// starts that isn't in the format.
/// `NoMemory` may come at any time. It takes time in the number of bytes.
pub fn read_order(alloc: Global, bytes: &[u8], from: usize) -> Result<Order, OrderError>
    ensures ok { IfOk result (λ order. IsOrder from (drop from bytes.now) order.items) }
    ensures err { IfErr result (IsRefusedOrNoMemory from (drop from bytes.now)) }
{
    // The check asks that each type inside a line is named where a line is moved.
    let _inside: Option<Fresh> = None;
    let mut order = Order::new(alloc);
    let mut cursor = Cursor {
        rest: &bytes[from.min(bytes.len())..],
    };
    'lines: while !cursor.rest.is_empty() {
        let place = bytes.len() - cursor.rest.len();
        let Some(line) = cursor.line(place) else {
            return Err(OrderError::BadOrder { place });
        };
        order.push(line)?;
    }
    Ok(order)
}
