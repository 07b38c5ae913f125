// Where a dump and the twin disagree: each sample with SCL high that the dump shows with SDA high while the twin pulls it low.
#![tactic(auto)]

ghost use Rattle.std.specs.Prelude.{◌≡◌, ◌≤◌, ◌<◌, length, eqb, IfOk};
ghost use Rattle.ground.specs.Numbers.{most_samples};
ghost use Rattle.ground.specs.Kind.{kind_of};
ghost use Rattle.ground.specs.Verdict.{meant};
ghost use Rattle.dumps.specs.Faults.{dump_verdict};
ghost use Rattle.places.specs.Places.{open_by};
ghost use Rattle.disagreements.specs.Promises.{Opens, Plays, PlaysOn, Reports, Stands};

use ground::{Reason, Reply, kinds};
use part::state::State;
use pieces::Mark;

// The samples of a piece, as the report takes them: rows of this length are quick, and where the cuts fall makes no difference.
pub const PIECE: usize = 4096;

// Where a dump is left: the part, the mark of the next sample, if the dump is not over, and the sample's place.
#[derive(Clone, Copy)]
pub struct Stand {
    pub state: State,
    pub mark: Option<Mark>,
    pub next: usize,
}

// The reply to a dump, and where its replay begins; after a refusal too, for `Opens` promises that as well.
#[derive(Clone, Copy)]
pub struct Opened {
    pub reply: Reply,
    pub stand: Stand,
}

// How many samples were replayed, and where the dump is left.
#[derive(Clone, Copy)]
pub struct Played {
    pub count: usize,
    pub stand: Stand,
}

// Judges the array behind a power-up, then the dump.
fn judge(part: u16, powered: Reply, dump: &[u8], array: &[u8]) -> Reply
    ensures said { meant result ≡ open_by (meant powered) (eqb (length array.now) (kind_of part).size) (dump_verdict dump.now) }
    ensures small { IfOk result (λ n. n < 18446744073709551616) }
{
    powered?;
    let kind = kinds::kind_of(part);
    if array.len() != usize::from(kind.size) {
        return Err(Reason::ArrayLength.into());
    }
    let samples = judging::judge(dump)?;
    Ok(samples)
}

// Judges part, select, stored byte, array and dump, in this order, and powers the part up.
pub fn begin(part: u16, select: u8, stored: u8, dump: &[u8], array: &[u8]) -> Opened
    ensures { Opens part select stored dump.now array.now result }
{
    let powered = twin::power_up(part, select, stored);
    Opened {
        reply: judge(part, powered.reply, dump, array),
        stand: Stand {
            state: powered.state,
            mark: pieces::begin(dump),
            next: 0,
        },
    }
}

// Replays the next piece of a dump: as many samples as are left and as the rows hold.
pub fn play(
    dump: &[u8],
    stand: Stand,
    array: &mut [u8],
    elapsed: &mut [u32],
    levels: &mut [u8],
    answers: &mut [u8],
) -> Played
    requires stands { Stands dump.now stand array.old }
    requires elapsed_len { length elapsed.old ≡ length levels.old }
    requires answers_len { length answers.old ≡ length levels.old }
    requires levels_len_bound { length levels.old ≤ most_samples }
    ensures { Plays dump.now stand array.old levels.old answers.old result array.new levels.new answers.new }
{
    let filled = pieces::fill(dump, stand.mark, elapsed, levels);
    let count = filled.count;
    let replayed = twin::replay(
        stand.state,
        &elapsed[..count],
        &levels[..count],
        array,
        &mut answers[..count],
    );
    Played {
        count,
        stand: Stand {
            state: replayed.state,
            mark: filled.mark,
            next: stand.next + count,
        },
    }
}

// Replays what is left of a dump piece after piece, and answers how many places disagree.
fn play_on(
    dump: &[u8],
    from: Stand,
    array: &mut [u8],
    places: &mut [u64],
    elapsed: &mut [u32],
    levels: &mut [u8],
    answers: &mut [u8],
) -> usize
    requires stands { Stands dump.now «from» array.old }
    requires elapsed_len { length elapsed.old ≡ 4096 }
    requires levels_len { length levels.old ≡ 4096 }
    requires answers_len { length answers.old ≡ 4096 }
    ensures { PlaysOn dump.now «from» array.old places.old result array.new places.new }
{
    let mut stand = from;
    let mut found = 0;
    loop {
        let first = stand.next;
        let played = play(dump, stand, array, elapsed, levels, answers);
        let count = played.count;
        if count == 0 {
            return found;
        }
        found = places::gather(&levels[..count], &answers[..count], first, places, found);
        stand = played.stand;
    }
}

// The report of a whole dump: how many places disagree, and the first of them in the row, ascending. A refusal changes nothing.
pub fn report(
    part: u16,
    select: u8,
    stored: u8,
    dump: &[u8],
    array: &mut [u8],
    places: &mut [u64],
) -> Reply
    ensures { Reports part select stored dump.now array.old places.old result array.new places.new }
{
    let opened = begin(part, select, stored, dump, array);
    opened.reply?;
    let mut elapsed = [0u32; PIECE];
    let mut levels = [0u8; PIECE];
    let mut answers = [0u8; PIECE];
    let found = play_on(
        dump,
        opened.stand,
        array,
        places,
        &mut elapsed,
        &mut levels,
        &mut answers,
    );
    Ok(found)
}
