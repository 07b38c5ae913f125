// The control register: how it reads, and what a register byte orders at a stop.
#![tactic(auto)]

ghost use Rattle.std.specs.Prelude.{◌≡◌};
ghost use Rattle.control.specs.Register.{plain_of, reads_of, order_of, carried_out, takes_time};

use ground::cases;
use part::state::Control;

// What a stop after one register byte does.
#[derive(Clone, Copy)]
pub enum Order {
    SetWel,
    ClearWel,
    SetRwel,
    Take,
    Nothing,
}

// The bits of a control byte that are stored: all but the two latches.
fn plain(v: u8) -> u8
    ensures { result ≡ plain_of v }
{
    v / 8 * 8 + v % 2
}

// The register as it reads, latches included. A stored byte has no latch bits in any state that is
// replayed; where one has them they show too.
pub fn reads(c: Control) -> u8
    ensures { result ≡ reads_of c }
{
    let rwel = c.rwel | (c.stored / 4 % 2 == 1);
    let wel = c.wel | (c.stored / 2 % 2 == 1);
    plain(c.stored) + cases::worth(rwel, 4) + cases::worth(wel, 2)
}

// What the pending byte orders at a stop, with WP as the stop's sample has it.
#[tactic(auto, unfolding(crate::specs::Register::order_of))]
pub fn order_of(wp: bool, c: Control) -> Order
    ensures { result ≡ order_of wp c }
{
    if !c.pending {
        return Order::Nothing;
    }
    if c.rwel {
        let guarded = wp & (c.stored / 128 % 2 == 1);
        return match c.value / 2 % 4 {
            1 if !guarded => Order::Take,
            _ => Order::Nothing,
        };
    }
    match c.value {
        0x02 => Order::SetWel,
        0x00 => Order::ClearWel,
        // RWEL is set only behind WEL.
        0x06 if c.wel => Order::SetRwel,
        _ => Order::Nothing,
    }
}

// The register after an order.
#[tactic(auto, unfolding(crate::specs::Register::carried_out))]
pub fn carry_out(order: Order, c: Control) -> Control
    ensures { result ≡ carried_out order c }
{
    match order {
        Order::SetWel => Control { wel: true, ..c },
        Order::ClearWel => Control { wel: false, ..c },
        Order::SetRwel => Control { rwel: true, ..c },
        Order::Take => Control {
            stored: plain(c.value),
            rwel: false,
            ..c
        },
        Order::Nothing => c,
    }
}

// Whether an order takes the write time.
pub fn takes_time(order: Order) -> bool
    ensures { result ≡ takes_time order }
{
    matches!(order, Order::Take)
}
