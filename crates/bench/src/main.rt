// Replays the cases on standard input and writes a reply for each to standard output.
#![tactic(auto)]

use intake::Case;
use std::io;
use std::io::Write;
use trials::cases;

// Serves a case and writes its reply; that of a refused power-up ends after its number and place.
fn serve<W: Write>(out: &mut W, case: &mut Case) -> io::Result<()> {
    let said = cases::answer(
        case.header,
        case.elapsed,
        case.levels,
        case.array,
        case.answers,
    );
    out.write_all(&said.opening)?;
    let Some(rest) = said.rest else {
        return Ok(());
    };
    out.write_all(case.answers)?;
    out.write_all(case.array)?;
    out.write_all(&rest.closing)?;
    if let Some(tail) = rest.tail {
        out.write_all(&tail)?;
    }
    Ok(())
}

// A proved loop has to end, and nothing says that the input does: the turns are counted up to a number
// that no run reaches.
fn main(rt: HostRuntime) -> io::Result<()> {
    let mut input = rt.stdin();
    let mut out = rt.stdout();
    for _ in 0..u64::MAX {
        if !intake::read_case(&mut input, |case| serve(&mut out, case))? {
            break;
        }
    }
    Ok(())
}
