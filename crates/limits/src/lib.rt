// Refusals 9 and 10: the earliest sample whose time or levels are out of bounds.
#![tactic(auto)]

ghost use Rattle.std.specs.Prelude.{◌≡◌, length};
ghost use Rattle.ground.specs.Verdict.{accepted, meant};
ghost use Rattle.limits.specs.Samples.{samples_of};

use ground::{Reason, Refusal, Reply};

// The most samples of one replay, and what each may say: the time since the one before, and the levels.
pub const MOST_SAMPLES: usize = 65_536;

pub const MOST_ELAPSED: u32 = 100_000;

pub const MOST_LEVEL: u8 = 15;

// The earliest faulty sample of two rows of one length, or acceptance with that length.
fn faults(elapsed: &[u32], levels: &[u8]) -> Reply
    requires { length elapsed.now ≡ length levels.now }
    ensures { meant result ≡ samples_of 0 elapsed.now levels.now (accepted (length levels.now)) }
{
    for (place, (time, level)) in elapsed.iter().zip(levels).enumerate() {
        if *time > MOST_ELAPSED {
            return Err(Refusal {
                reason: Reason::TimeTooLong,
                place,
            });
        }
        if *level > MOST_LEVEL {
            return Err(Refusal {
                reason: Reason::LevelTooHigh,
                place,
            });
        }
    }
    Ok(levels.len())
}

// The same as `faults`, which is only asked where there is a fault. Both rows are folded to their end: the compiler then takes several
// samples at a time.
pub fn samples(elapsed: &[u32], levels: &[u8]) -> Reply
    requires { length elapsed.now ≡ length levels.now }
    ensures { meant result ≡ samples_of 0 elapsed.now levels.now (accepted (length levels.now)) }
{
    let longest = elapsed.iter().copied().fold(0, u32::max);
    let highest = levels.iter().copied().fold(0, u8::max);
    if longest <= MOST_ELAPSED && highest <= MOST_LEVEL {
        return Ok(levels.len());
    }
    faults(elapsed, levels)
}
