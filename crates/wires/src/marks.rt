// The wanted wires, and the marks of a code.
ghost use Rattle.std.specs.Prelude.{◌≡◌, ◌≤◌};
ghost use Rattle.wires.specs.Wires.{weight_of, laid, marked, has_wire};

pub const ALL: u8 = 15;

pub const DECLARED: u8 = 16;

const SCL: &[u8] = b"SCL";

const SDA: &[u8] = b"SDA";

const WP: &[u8] = b"WP";

const VCC: &[u8] = b"VCC";

// The mark of the wanted wire that has a name. Marks are a set of bits, so that of any other wire is the empty set, and no None.
#[tactic(auto, unfolding(crate::specs::Wires::weight_of))]
pub fn wire_of(name: &[u8]) -> u8
    ensures value { result ≡ weight_of name.now }
    ensures upper_bound { result ≤ 8 }
{
    if name == SCL {
        1
    } else if name == SDA {
        2
    } else if name == WP {
        4
    } else if name == VCC {
        8
    } else {
        0
    }
}

// A level byte with a value, 0 or 1, laid over the bits that the marks name.
pub fn lay(value: u8, marks: u8, old: u8) -> u8
    requires { value ≤ 1 }
    ensures value { result ≡ laid value marks old }
    ensures upper_bound { result ≤ 15 }
{
    let both = old | marks;
    if value == 1 {
        return both % 16;
    }
    (both ^ marks) % 16
}

// The marks of a code that one more wire is declared with.
pub fn mark(marks: u8, wire: u8) -> u8
    ensures value { result ≡ marked marks wire }
    ensures upper_bound { result ≤ 31 }
{
    DECLARED + lay(1, wire, marks)
}

// Whether a wire is wanted and is among those of a mask.
#[tactic(auto, unfolding(crate::specs::Wires::has_wire))]
pub fn has_wire(mask: u8, wire: u8) -> bool
    ensures { result ≡ has_wire mask wire }
{
    wire > 0 && mask / wire % 2 == 1
}
