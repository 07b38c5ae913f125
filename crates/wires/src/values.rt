// The value of a wire.
ghost use Rattle.std.specs.Prelude.{◌≡◌, ◌≤◌};
ghost use Rattle.wires.specs.Values.{is_value, level_of, unfit};

// Whether a character is a value: 0, 1, x or z, the letters in either case.
#[tactic(auto, unfolding(crate::specs::Values::is_value))]
pub fn is_value(character: u8) -> bool
    ensures { result ≡ is_value character }
{
    matches!(character, b'0' | b'1' | b'x' | b'X' | b'z' | b'Z')
}

// The level of a value: high for 1 and z.
#[tactic(auto, unfolding(crate::specs::Values::level_of))]
pub fn level_of(character: u8) -> u8
    ensures value { result ≡ level_of character }
    ensures upper_bound { result ≤ 1 }
{
    u8::from(matches!(character, b'1' | b'z' | b'Z'))
}

// Whether the wires of some marks do not take a value: a wanted wire takes no x, and only SDA a z.
#[tactic(auto, unfolding(crate::specs::Values::unfit))]
pub fn is_unfit(character: u8, marks: u8) -> bool
    ensures { result ≡ unfit character marks }
{
    match character {
        b'x' | b'X' => marks % 16 > 0,
        b'z' | b'Z' => marks % 2 + marks / 4 % 4 > 0,
        _ => false,
    }
}
