// The first fault of a dump: the earliest line, and the lowest number there.
ghost use Rattle.std.specs.Prelude.{◌≡◌, eqb, not};
ghost use Rattle.wires.specs.Wires.{has_wire, all_wires};
ghost use Rattle.dumps.specs.Faults.{comes_first, fault_if};
ghost use Rattle.headings.specs.Parts.{numbered_of, numbered_meant, number_in, first_of, joined_of, numbers_joined_of};

use ground::Reason;
use wires::marks;

// A fault with its line, counted from 0.
#[derive(Clone, Copy, Debug, PartialEq, Eq)]
pub struct Fault {
    pub reason: Reason,
    pub line: usize,
}

// A fault by its number, which may be any, with its line; number 0 is none.
#[derive(Clone, Copy, Debug, PartialEq, Eq)]
pub struct Numbered {
    pub number: u8,
    pub line: usize,
}

impl From<Fault> for Numbered {
    ghost from_gives = { λ fault numbered. numbered ≡ numbered_of fault };

    fn from(fault: Fault) -> Numbered {
        Numbered {
            number: fault.reason.into(),
            line: fault.line,
        }
    }
}

// Whether a fault comes before another, or is the same.
fn comes_first(fault: Numbered, other: Numbered) -> bool
    ensures { result ≡ comes_first (numbered_meant fault) (numbered_meant other) }
{
    fault.line < other.line || (fault.line == other.line && fault.number <= other.number)
}

// The first of a fault and another by their numbers, where either may be none.
#[tactic(auto, unfolding(crate::specs::Parts::numbers_joined_of))]
pub fn join_numbers(fault: Numbered, number: u8, line: usize) -> Numbered
    ensures { result ≡ numbers_joined_of fault number line }
{
    let other = Numbered { number, line };
    if number == 0 {
        return fault;
    }
    if fault.number == 0 {
        return other;
    }
    if comes_first(fault, other) {
        return fault;
    }
    other
}

// The first of a fault, if there is one, and another.
pub fn first(fault: Option<Fault>, other: Fault) -> Fault
    ensures { result ≡ first_of fault other }
{
    match fault {
        Some(fault) if comes_first(fault.into(), other.into()) => fault,
        _ => other,
    }
}

// The same, where there may be no other.
#[tactic(auto, unfolding(crate::specs::Parts::joined_of))]
pub fn join(fault: Option<Fault>, reason: Option<Reason>, line: usize) -> Option<Fault>
    ensures { result ≡ joined_of fault reason line }
{
    match reason {
        Some(reason) => Some(first(fault, Fault { reason, line })),
        None => fault,
    }
}

// A wanted name a second time.
pub fn twice(named: u8, wire: u8) -> Option<Reason>
    ensures { number_in result ≡ fault_if (has_wire named wire) 21 }
{
    marks::has_wire(named, wire).then_some(Reason::WiresWrong)
}

// A wanted wire that was not named.
pub fn missing(named: u8) -> Option<Reason>
    ensures { number_in result ≡ fault_if (not (eqb named all_wires)) 21 }
{
    (named != marks::ALL).then_some(Reason::WiresWrong)
}
