// What the work on a case can stop at, and what `show` and `trace` say of it.
ghost use Rattle.std.specs.Prelude.{◌≡◌, Some, OnOk};
ghost use Rattle.std.specs.Io.KnownBytes.{Appends};
ghost use Rattle.intake.specs.Ending.{ending_of};
ghost use Rattle.intake.specs.declared.stops.Stop.TheVariants.{Refused, Io};
ghost use Rattle.intake.specs.Refused.{refused_text};

use ground::Refusal;
use std::io::Write;
use std::{fmt, io};

// A refusal in words.
#[derive(Clone, Copy)]
struct InWords(Refusal);

impl fmt::Display for InWords {
    ghost output = { λ refusal. Some (refused_text refusal.0) };

    fn fmt<W: fmt::Write>(&self, f: &mut fmt::Formatter<W>) -> fmt::Result {
        let Refusal { reason, place } = self.0;
        write!(f, "refused {} at {place}", u8::from(reason))
    }
}

// The case is refused, or something could not be read or written.
#[derive(Debug, Drop)]
pub enum Stop {
    Refused(Refusal),
    Io(io::Error),
}

impl From<Refusal> for Stop {
    ghost from_gives = { λ refusal stop. stop ≡ Refused refusal };

    fn from(refusal: Refusal) -> Stop {
        Stop::Refused(refusal)
    }
}

impl From<io::Error> for Stop {
    ghost from_gives = { λ error stop. stop ≡ Io error };

    fn from(error: io::Error) -> Stop {
        Stop::Io(error)
    }
}

// Ends what is written where an input has one case: with the line of its refusal, or one that says that it was not whole.
pub fn put_end<W: Write>(out: &mut W, served: Result<bool, Stop>) -> io::Result<()>
    ensures { OnOk result (Appends (W.contents out.old) (W.contents out.new) (ending_of served)) }
{
    match served {
        Ok(true) => Ok(()),
        Ok(false) => writeln!(
            out,
            "no whole case: it is cut off, or longer than docs/BENCH.md allows"
        ),
        Err(Stop::Refused(refusal)) => writeln!(out, "{}", InWords(refusal)),
        Err(Stop::Io(error)) => Err(error),
    }
}
