// `if end` in a block with one form around it, two and more, where two may be: from two on the rest of the file is one Error node. The
// events, message and place are those of reject_excessive_control_flow_nesting in parser.rs.
use crate::any_depth::{
    AnyDepth, AnyPlace, first_rounds_at_any_depth, next_rounds_at_any_depth,
    parse_block_at_any_depth,
};
use crate::close::BlockEnd;
use crate::rounds::Stopped;
use grammar::block::{BlockOwner, BlockParseOutcome, Terminators};
use grammar::limit::NestingLimit;
use grammar::words::{MARK, WHILE, Word};
use lexer::syntax::{IDENT, SyntaxKind};
use parser::cursor::Cursor;
use parser::state::Parser;

const BLOCK: u16 = SyntaxKind::Block as u16;

const ERROR: u16 = SyntaxKind::Error as u16;

const IF_OP: u16 = SyntaxKind::IfOp as u16;

const FROM_LIMIT: [u16; 3] = [2, 3, u16::MAX];

const KINDS: [u16; 2] = [
    IDENT + MARK * Word::If as u16,
    IDENT + MARK * Word::End as u16,
];

fn place(forms: u16) -> AnyPlace {
    AnyPlace {
        depth: AnyDepth {
            forms,
            limit: NestingLimit { forms: 2 },
        },
        owner: BlockOwner::Begin,
        terminators: Terminators::End,
    }
}

fn block(forms: u16, events: &mut [u16], messages: &mut [u16], starts: &mut [u32]) -> BlockEnd {
    let mut parser = Parser {
        kinds: &KINDS,
        events,
        messages,
        starts,
    };
    let p = place(forms);
    parse_block_at_any_depth(
        &mut parser,
        Cursor::default(),
        p.owner,
        p.terminators,
        p.depth,
    )
}

fn first(forms: u16, events: &mut [u16]) -> Stopped {
    let mut parser = Parser {
        kinds: &KINDS,
        events,
        messages: &mut [],
        starts: &mut [],
    };
    first_rounds_at_any_depth(&mut parser, Cursor::default(), place(forms))
}

fn next(forms: u16, events: &mut [u16]) -> Stopped {
    let mut parser = Parser {
        kinds: &KINDS,
        events,
        messages: &mut [],
        starts: &mut [],
    };
    next_rounds_at_any_depth(&mut parser, Cursor::default(), place(forms), false)
}

#[test]
fn blocks_at_any_depth(rt: HostRuntime) {
    for forms in FROM_LIMIT {
        let mut events = [7; 9];
        let mut messages = [7; 3];
        let mut starts = [7; 3];
        let end = block(forms, &mut events, &mut messages, &mut starts);
        assert!(rt;
            matches!(end.outcome, BlockParseOutcome::ReachedEof),
            "at {forms}"
        );
        assert_eq!(rt;
            (end.c.pos, end.c.events, end.c.diags),
            (2, 6, 1),
            "at {forms}"
        );
        assert_eq!(rt;
            events,
            [BLOCK, ERROR, IDENT, IDENT, 0, 0, 7, 7, 7],
            "at {forms}"
        );
        assert_eq!(rt; messages, [49, 7, 7], "at {forms}");
        assert_eq!(rt; starts, [0, 7, 7], "at {forms}");
    }
    let mut events = [7; 2];
    block(1, &mut events, &mut [], &mut []);
    assert_eq!(rt; events, [BLOCK, IF_OP]);
}

// A `while` ends the body of a `do`, and at the end of the file it is the body's `while` that is missing.
#[test]
fn a_do_body_at_any_depth(rt: HostRuntime) {
    for forms in [1, 2, 3, u16::MAX] {
        let p = AnyPlace {
            owner: BlockOwner::DoWhileBody,
            terminators: Terminators::While,
            ..place(forms)
        };
        let mut events = [7; 3];
        let mut parser = Parser {
            kinds: &[WHILE],
            events: &mut events,
            messages: &mut [],
            starts: &mut [],
        };
        let end = parse_block_at_any_depth(
            &mut parser,
            Cursor::default(),
            p.owner,
            p.terminators,
            p.depth,
        );
        assert!(rt;
            matches!(end.outcome, BlockParseOutcome::FoundTerminator),
            "at {forms}"
        );
        assert_eq!(rt; events, [BLOCK, 0, 7], "at {forms}");
        let mut messages = [7; 2];
        let mut parser = Parser {
            kinds: &[],
            events: &mut [],
            messages: &mut messages,
            starts: &mut [],
        };
        let first = first_rounds_at_any_depth(&mut parser, Cursor::default(), p);
        assert!(rt; matches!(first, Stopped::Closed(_)), "at {forms}");
        assert_eq!(rt; messages, [5, 7], "at {forms}");
    }
}

#[test]
fn rounds_at_any_depth(rt: HostRuntime) {
    for forms in FROM_LIMIT {
        let mut events = [7; 9];
        assert!(rt;
            matches!(first(forms, &mut events), Stopped::Closed(_)),
            "at {forms}"
        );
        assert_eq!(rt;
            events,
            [BLOCK, ERROR, IDENT, IDENT, 0, 0, 7, 7, 7],
            "at {forms}"
        );
        let mut events = [7; 9];
        assert!(rt;
            matches!(next(forms, &mut events), Stopped::Closed(_)),
            "at {forms}"
        );
        assert_eq!(rt;
            events,
            [ERROR, IDENT, IDENT, 0, 0, 7, 7, 7, 7],
            "at {forms}"
        );
    }
    let mut events = [7; 2];
    assert!(rt; matches!(first(1, &mut events), Stopped::Form(_)));
    assert_eq!(rt; events, [BLOCK, 7]);
    assert!(rt; matches!(next(1, &mut events), Stopped::Form(_)));
}
