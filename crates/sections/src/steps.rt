// What a token of a section does, by the place that it stands at.
ghost use Rattle.std.specs.Prelude.{◌≡◌};
ghost use Rattle.sections.specs.Spelling.{printable, free, is_end, is_scope_kind, keyword_of};
ghost use Rattle.sections.specs.declared.Place.TheVariants.{ScaleNumber};
ghost use Rattle.sections.specs.Sections.{step_meant, go_by, skip_by, opens, section_says};

use crate::keywords::{END, keyword_of};
use crate::{Keyword, Place, Stage, Step};

const ONE: &[u8] = b"1";

const ONE_MICRO: &[u8] = b"1us";

const MICRO: &[u8] = b"us";

const WIRE: &[u8] = b"wire";

const MODULE: &[u8] = b"module";

const TASK: &[u8] = b"task";

const FUNCTION: &[u8] = b"function";

const BEGIN: &[u8] = b"begin";

const FORK: &[u8] = b"fork";

// Whether all characters can be seen.
fn is_printable(word: &[u8]) -> bool
    ensures { result ≡ printable word.now }
{
    word.iter().all(|character| character.is_ascii_graphic())
}

// Whether a word may be a code or a name.
fn is_free(word: &[u8]) -> bool
    ensures { result ≡ free word.now }
{
    is_printable(word) && word != END
}

fn is_scope_kind(word: &[u8]) -> bool
    ensures { result ≡ is_scope_kind word.now }
{
    word == MODULE || word == TASK || word == FUNCTION || word == BEGIN || word == FORK
}

// To a place if a test holds; else the token is malformed.
#[tactic(auto, using(crate::proofs::SectionLaws::then_says), unfolding(crate::specs::Sections::step_meant))]
fn go(test: bool, stage: Stage, place: Place) -> Option<Step>
    ensures { step_meant result ≡ go_by test (record { stage = stage; place = place }) }
{
    test.then_some(Step::Moves { stage, place })
}

// Past the end of a section that is skipped, or on within it.
#[tactic(auto, unfolding(crate::specs::Sections::step_meant))]
fn skip(stage: Stage, word: &[u8]) -> Option<Step>
    ensures { step_meant result ≡ skip_by (is_end word.now) stage }
{
    let place = if word == END {
        Place::Between
    } else {
        Place::Skipped
    };
    Some(Step::Moves { stage, place })
}

// The number of a timescale, alone or with its unit.
#[tactic(auto, unfolding(crate::specs::Sections::step_meant, crate::specs::Sections::section_says))]
fn scale(stage: Stage, word: &[u8]) -> Option<Step>
    ensures { step_meant result ≡ section_says ScaleNumber stage word.now }
{
    if word == ONE {
        go(true, stage, Place::ScaleUnit)
    } else {
        go(word == ONE_MICRO, stage, Place::Close)
    }
}

// What a word between two sections does, if it may stand there.
#[tactic(auto, using(crate::proofs::SectionLaws::then_says), unfolding(crate::specs::Sections::step_meant))]
pub fn open(stage: Stage, word: &[u8]) -> Option<Step>
    ensures { step_meant result ≡ opens (keyword_of word.now) stage }
{
    match keyword_of(word) {
        Keyword::Remark => go(stage != Stage::Body, stage, Place::Skipped),
        Keyword::Comment => go(true, stage, Place::Skipped),
        Keyword::Timescale => go(stage == Stage::Start, Stage::Scaled, Place::ScaleNumber),
        Keyword::Scope => go(stage == Stage::Scaled, Stage::Scoped, Place::ScopeKind),
        Keyword::Var => go(stage == Stage::Scoped, Stage::Scoped, Place::VarKind),
        Keyword::Upscope => go(stage == Stage::Scoped, Stage::Closed, Place::Close),
        Keyword::EndDefinitions => (stage == Stage::Closed).then_some(Step::Defines),
        Keyword::Dumpvars => go(stage == Stage::Body, Stage::Body, Place::Values),
        Keyword::End | Keyword::Other => None,
    }
}

// What a token does that stands in a section, or between two of the definitions; nothing if it is malformed.
#[tactic(auto, using(crate::proofs::SectionLaws::then_says), unfolding(crate::specs::Sections::step_meant, crate::specs::Sections::section_says))]
pub fn hear(stage: Stage, place: Place, word: &[u8]) -> Option<Step>
    ensures { step_meant result ≡ section_says place stage word.now }
{
    match place {
        Place::Between => open(stage, word),
        Place::Skipped => skip(stage, word),
        Place::ScaleNumber => scale(stage, word),
        Place::ScaleUnit => go(word == MICRO, stage, Place::Close),
        Place::ScopeKind => go(is_scope_kind(word), stage, Place::ScopeName),
        Place::ScopeName => go(is_free(word), stage, Place::Close),
        Place::VarKind => go(word == WIRE, stage, Place::VarWidth),
        Place::VarWidth => go(word == ONE, stage, Place::VarCode),
        Place::VarCode => is_free(word).then_some(Step::Codes),
        Place::VarName => is_free(word).then_some(Step::Names),
        Place::Close | Place::Values => go(word == END, stage, Place::Between),
        Place::Wrong => go(true, stage, Place::Wrong),
    }
}
