// What kind of part a part number names.
ghost use Rattle.std.specs.Prelude.{◌≡◌};
ghost use Rattle.ground.specs.Kind.{smaller, larger, kind_of};
ghost use Rattle.ground.specs.Size.{SizesPart};

pub const X4323: u16 = 4323;

pub const X4325: u16 = 4325;

pub const X4283: u16 = 4283;

pub const X4285: u16 = 4285;

pub const SMALL_SIZE: u16 = 4096;

pub const LARGE_SIZE: u16 = 16384;

// The array's size in bytes, the RESET pin's active level, and whether block codes 1 and 2 lock upper blocks. A size of 0 is no part:
// `kind_of` of the specs gives every number a kind, since the theorems on states speak also of a state that names no part.
#[derive(Clone, Copy)]
pub struct Kind {
    pub size: u16,
    pub high: bool,
    pub upper: bool,
}

// A part of the smaller size, by its RESET pin. It and the next carry one definition each.
fn small(high: bool) -> Kind
    ensures { result ≡ smaller high }
{
    Kind {
        size: SMALL_SIZE,
        high,
        upper: false,
    }
}

// One of the larger size.
fn large(high: bool) -> Kind
    ensures { result ≡ larger high }
{
    Kind {
        size: LARGE_SIZE,
        high,
        upper: true,
    }
}

pub fn kind_of(part: u16) -> Kind
    ensures { result ≡ kind_of part }
{
    match part {
        X4323 => small(false),
        X4325 => small(true),
        X4283 => large(false),
        X4285 => large(true),
        _ => Kind {
            size: 0,
            high: false,
            upper: false,
        },
    }
}

// The array's size of the part that a number names.
pub fn size_of(part: u16) -> Option<u32>
    ensures { SizesPart part result }
{
    let kind = kind_of(part);
    if kind.size == 0 {
        return None;
    }
    Some(kind.size as u32)
}
