// How many samples a time line makes.
ghost use Rattle.std.specs.Prelude.{◌≡◌, true, ◌≤◌, ◌+◌};
ghost use Rattle.dumps.specs.Samples.{repeats_of};
ghost use Rattle.judging.specs.Parts.{most_counted, gap_by, counted_by};

pub const MOST_ELAPSED: u64 = limits::MOST_ELAPSED as u64;

// The repeats of a gap.
fn repeats(gap: u64) -> u64
    ensures { result ≡ repeats_of gap }
{
    gap.saturating_sub(1) / MOST_ELAPSED
}

// The repeats before a time line; the first has none.
fn repeats_to(begun: bool, before: u64, time: u64) -> u64
    ensures { result ≡ repeats_of (gap_by begun before time) }
{
    if begun {
        repeats(time.saturating_sub(before))
    } else {
        0
    }
}

// The samples with those of one time line more, where there was no fault.
pub fn counted(sound: bool, begun: bool, before: u64, time: u64, samples: usize) -> usize
    requires { sound ≡ true → samples ≤ most_counted }
    ensures { result ≡ counted_by sound samples (repeats_of (gap_by begun before time) + 1) }
{
    if sound {
        samples + (repeats_to(begun, before, time) as usize + 1)
    } else {
        samples
    }
}
