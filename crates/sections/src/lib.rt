// The sections of a dump: which may stand where, and what each token of one is. Nothing here knows a wire, a time or a value.
#![tactic(auto)]

mod keywords;
mod steps;

pub use keywords::keyword_of;
pub use steps::{hear, open};

// How far the definitions are: which of the sections that come once have begun.
#[derive(Clone, Copy, Debug, PartialEq, Eq)]
pub enum Stage {
    Start,
    Scaled,
    Scoped,
    Closed,
    Body,
}

// What the next token is taken for. `Between` is outside every section, `Skipped` inside one that is not looked at, `Close` before the
// `$end` of any other, and `Wrong` behind the first token that is malformed.
#[derive(Clone, Copy, Debug, PartialEq, Eq)]
pub enum Place {
    Between,
    Skipped,
    ScaleNumber,
    ScaleUnit,
    ScopeKind,
    ScopeName,
    VarKind,
    VarWidth,
    VarCode,
    VarName,
    Close,
    Values,
    Wrong,
}

// A word that begins or ends a section. `Remark` is $date or $version.
#[derive(Clone, Copy, Debug, PartialEq, Eq)]
pub enum Keyword {
    Remark,
    Comment,
    Timescale,
    Scope,
    Var,
    Upscope,
    EndDefinitions,
    Dumpvars,
    End,
    Other,
}

// What a token of a section does: it leads to another place, is the code or the name of a wire, or ends the definitions. A malformed one
// does nothing.
#[derive(Clone, Copy, Debug, PartialEq, Eq)]
pub enum Step {
    Moves { stage: Stage, place: Place },
    Codes,
    Names,
    Defines,
}
