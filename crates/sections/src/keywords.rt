// Which word begins or ends a section.
ghost use Rattle.std.specs.Prelude.{◌≡◌};
ghost use Rattle.sections.specs.Spelling.{keyword_of};

use crate::Keyword;

// The word that ends a section.
pub const END: &[u8] = b"$end";

const COMMENT: &[u8] = b"$comment";

const DUMPVARS: &[u8] = b"$dumpvars";

const VAR: &[u8] = b"$var";

const DATE: &[u8] = b"$date";

const VERSION: &[u8] = b"$version";

const TIMESCALE: &[u8] = b"$timescale";

const SCOPE: &[u8] = b"$scope";

const UPSCOPE: &[u8] = b"$upscope";

const END_DEFINITIONS: &[u8] = b"$enddefinitions";

// The keyword that a word is. A match on byte strings leaves a hundred goals, where each comparison here leaves one.
#[tactic(auto, unfolding(crate::specs::Spelling::keyword_of))]
pub fn keyword_of(word: &[u8]) -> Keyword
    ensures { result ≡ keyword_of word.now }
{
    if word == END {
        Keyword::End
    } else if word == COMMENT {
        Keyword::Comment
    } else if word == DUMPVARS {
        Keyword::Dumpvars
    } else if word == VAR {
        Keyword::Var
    } else if word == DATE || word == VERSION {
        Keyword::Remark
    } else if word == TIMESCALE {
        Keyword::Timescale
    } else if word == SCOPE {
        Keyword::Scope
    } else if word == UPSCOPE {
        Keyword::Upscope
    } else if word == END_DEFINITIONS {
        Keyword::EndDefinitions
    } else {
        Keyword::Other
    }
}
