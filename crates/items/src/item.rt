// An item, by the token that it starts with.
ghost use Rattle.grammar.specs.Block.{parse_block};
ghost use Rattle.grammar.specs.Item.{parse_doc_form, parse_source_item};
ghost use Rattle.parser.specs.Rep.{entry, exit, Ran};
ghost use Rattle.items.specs.Arms.{by_item_arm};

use crate::arm::{ItemArm, item_arm_here};
use crate::procedure::{parse_begin_block, parse_procedure};
use declarations::advice_map::parse_advice_map;
use declarations::constant::parse_constant;
use declarations::namespace::parse_namespace;
use declarations::submodule::parse_submodule;
use declarations::type_decl::parse_type_decl;
use grammar::limit::NestingLimit;
use grammar::message::{Message, PlainMessage};
use lexer::syntax::SyntaxKind;
use parser::cursor::Cursor;
use parser::state::Parser;

pub fn parse_doc_form(parser: &mut Parser, c0: Cursor) -> Cursor
    ensures { Ran parse_doc_form (entry parser c0) (exit parser result) }
{
    let a = parser.start_node(c0, SyntaxKind::Doc);
    let b = parser.bump(a);
    parser.finish_node(b)
}

// What the arm does.
#[tactic(auto, using(crate::proofs::Arms::armed), unfolding(crate::specs::Arms::by_item_arm))]
fn parse_arm(parser: &mut Parser, c0: Cursor, a: ItemArm, limit: NestingLimit) -> Cursor
    ensures { Ran (by_item_arm a (parse_block limit.forms)) (entry parser c0) (exit parser result) }
{
    match a {
        ItemArm::Doc => parse_doc_form(parser, c0),
        ItemArm::Trivia => parser.bump(c0),
        ItemArm::Namespace => parse_namespace(parser, c0),
        ItemArm::Submodule => parse_submodule(parser, c0),
        ItemArm::Procedure => parse_procedure(parser, c0, limit),
        ItemArm::Begin => parse_begin_block(parser, c0, limit),
        ItemArm::Constant => parse_constant(parser, c0),
        ItemArm::Type => parse_type_decl(parser, c0),
        ItemArm::AdviceMap => parse_advice_map(parser, c0),
        ItemArm::Bad => parser.error_token(
            c0,
            Message::Plain(PlainMessage::UnexpectedTopLevelToken),
        ),
    }
}

pub fn parse_source_item(parser: &mut Parser, c0: Cursor, limit: NestingLimit) -> Cursor
    ensures { Ran (parse_source_item (parse_block limit.forms)) (entry parser c0) (exit parser result) }
{
    let a = item_arm_here(parser, c0.pos);
    parse_arm(parser, c0, a, limit)
}
