// Small words that larger functions are made of.
ghost use Rattle.std.specs.Prelude.{◌≡◌, ◌≤◌};
ghost use Rattle.ground.specs.Cases.{or_zero};

// The value if the test holds, else 0.
pub fn worth(test: bool, value: u8) -> u8
    ensures worth { result ≡ or_zero test value }
    ensures small { result ≤ value }
{
    if test {
        return value;
    }
    0
}
