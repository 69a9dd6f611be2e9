// Whose a block is, what closes it, what cuts it short, and how it ended.
// An owner is numbered as the message of its missing end in docs/MESSAGES.md.
#[derive(Debug, Clone, Copy, PartialEq, Eq)]
pub enum BlockOwner {
    Begin = 1,
    Procedure = 2,
    If = 3,
    While = 4,
    DoWhileBody = 5,
    DoWhile = 6,
    Repeat = 7,
}

// The terminator lists of parse_block: `end`; `else` and `end`; a bare `while`.
#[derive(Debug, Clone, Copy, PartialEq, Eq)]
pub enum Terminators {
    End,
    ElseEnd,
    While,
}

// The message of a recovery has the boundary's number, and twice the owner's more.
#[derive(Debug, Clone, Copy, PartialEq, Eq)]
pub enum BlockRecoveryBoundary {
    Else = 6,
    TopLevelItem = 7,
}

#[derive(Debug, Clone, Copy, PartialEq, Eq)]
pub enum BlockParseOutcome {
    FoundTerminator,
    RecoveredImplicitEnd,
    ReachedEof,
}
