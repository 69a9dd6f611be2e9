// The texts that the parser can report, each by its number in docs/MESSAGES.md; first those that name nothing.
ghost use Rattle.std.specs.Prelude.{◌≡◌};
ghost use Rattle.grammar.specs.Message.{number};

use crate::block::{BlockOwner, BlockRecoveryBoundary};
use crate::nesting::Closer;

#[derive(Debug, Clone, Copy, PartialEq, Eq)]
pub enum PlainMessage {
    UnexpectedTopLevelToken = 22,
    ExpectedNamespacePath = 23,
    ExpectedMod = 24,
    ExpectedSubmoduleName = 25,
    ExpectedConst = 26,
    ExpectedConstantName = 27,
    ExpectedConstantEqual = 28,
    ExpectedTypeOrEnum = 29,
    ExpectedTypeName = 30,
    ExpectedTypeEqualOrColon = 31,
    ExpectedAdviceMapName = 32,
    ExpectedAdviceMapKeyEnd = 33,
    ExpectedAdviceMapEqual = 34,
    ExpectedPathSegment = 35,
    ExpectedProc = 36,
    ExpectedProcedureName = 37,
    ExpectedAttributeName = 38,
    ExpectedAttributeEnd = 39,
    ExpectedPackage = 40,
    ExpectedPackageEnd = 41,
    ExpectedParametersEnd = 42,
    ExpectedResultsEnd = 43,
    ExpectedResultType = 44,
    DocCommentInBlock = 45,
    UnexpectedTokenInBlock = 46,
    ExpectedSuffixEnd = 47,
    ExpectedSuffix = 48,
    NestingTooDeep = 49,
}

// Unreached: an expect at a keyword that is always there. It has no text, and is never reported.
#[derive(Debug, Clone, Copy, PartialEq, Eq)]
pub enum Message {
    Plain(PlainMessage),
    UnexpectedCloser(Closer),
    MissingEnd(BlockOwner),
    Recovery(BlockOwner, BlockRecoveryBoundary),
    UnrecognizedToken,
    Unreached,
}

#[tactic(auto, unfolding(crate::specs::Message::number))]
impl From<Message> for u16 {
    ghost from_gives = { λ m n. n ≡ number m };

    fn from(m: Message) -> u16 {
        match m {
            Message::Plain(p) => p as u16,
            Message::UnexpectedCloser(c) => c as u16,
            Message::MissingEnd(o) => o as u16,
            Message::Recovery(o, b) => b as u16 + 2 * o as u16,
            Message::UnrecognizedToken => 50,
            Message::Unreached => 0,
        }
    }
}
