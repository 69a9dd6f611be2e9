// The texts of the messages, by number (docs/MESSAGES.md), and no Display of `Message`: the slice that is printed holds numbers.
use frames::output::write_numbers;
use grammar::message::{Message, PlainMessage};
use std::io;
use std::io::Write;

// Message n is at n, and there is no message 0.
static TEXTS: &[&str] = &[
    "",
    "expected `end` to close `begin` block",
    "expected `end` to close procedure",
    "expected `end` to close `if`",
    "expected `end` to close `while`",
    "expected `while` to close `do` block",
    "expected `end` to close `do`..`while` loop",
    "expected `end` to close `repeat`",
    "expected `end` to close `begin` block before `else`",
    "expected `end` to close `begin` block before top-level item",
    "expected `end` to close procedure before `else`",
    "expected `end` to close procedure before top-level item",
    "expected `end` to close `if` before `else`",
    "expected `end` to close `if` before top-level item",
    "expected `end` to close `while` before `else`",
    "expected `end` to close `while` before top-level item",
    "expected `while` to close `do` block before `else`",
    "expected `while` to close `do` block before top-level item",
    "expected `end` to close `do`..`while` loop before `else`",
    "expected `end` to close `do`..`while` loop before top-level item",
    "expected `end` to close `repeat` before `else`",
    "expected `end` to close `repeat` before top-level item",
    "unexpected top-level token",
    "expected a namespace path",
    "expected `mod` in submodule declaration",
    "expected a submodule name",
    "expected `const` in constant declaration",
    "expected a constant name",
    "expected `=` in constant declaration",
    "expected `type` or `enum`",
    "expected a type name",
    "expected `=` or `:` in type declaration",
    "expected an advice-map name",
    "expected `)` to close advice-map key",
    "expected `=` in advice-map declaration",
    "expected a path segment after `::`",
    "expected `proc` in procedure declaration",
    "expected a procedure name",
    "expected an attribute name",
    "expected `)` to close attribute arguments",
    "expected `package` in visibility modifier",
    "expected `)` after `package`",
    "expected `)` to close procedure parameters",
    "expected `)` to close procedure results",
    "expected a result type after `->` in procedure signature",
    "doc comments are only allowed before module-level items",
    "unexpected token in block",
    "expected `]` to close structured operation suffix",
    "expected a structured operation suffix",
    "control-flow nesting depth exceeded the maximum depth of",
    "unrecognized token",
    "unexpected closing delimiter `)`",
    "unexpected closing delimiter `]`",
    "unexpected closing delimiter `}`",
];

// The text of message n, or nothing where there is no such message. Past the depth limit it goes on with the limit, for an unrecognized
// token with the token, in backticks.
pub fn put_message(out: &mut impl Write, limit: u64, n: u16, token: &[u8]) -> io::Result<()> {
    let text = TEXTS.get(usize::from(n)).copied().unwrap_or("");
    out.write_all(text.as_bytes())?;
    if n == u16::from(Message::Plain(PlainMessage::NestingTooDeep)) {
        write_numbers(out, &[limit])?;
    }
    if n == u16::from(Message::UnrecognizedToken) {
        out.write_all(b" `")?;
        out.write_all(token)?;
        out.write_all(b"`")?;
    }
    Ok(())
}
