// The predicates that lexer.rs hands to advance_while, but for the one of words; and those of bytes that a quote passes over.
ghost use Rattle.std.specs.Prelude.{◌≡◌};
ghost use Rattle.lexer.specs.Chars.{blank, line_end, decimal, hex, binary, graphic, inside};
ghost use Rattle.lexer.specs.Chars.{graphic_inside, line_inside};
ghost use Rattle.lexer.specs.Lexer.{in_line};

pub fn is_blank(b: u8) -> bool
    ensures { result ≡ blank b }
{
    matches!(b, b' ' | b'\t')
}

pub fn is_line_end(b: u8) -> bool
    ensures { result ≡ line_end b }
{
    matches!(b, b'\n' | b'\r')
}

// Most bytes of a line are told by one comparison.
pub fn is_in_line(b: u8) -> bool
    ensures { result ≡ in_line b }
{
    b'\r' < b || !is_line_end(b)
}

pub fn is_decimal(b: u8) -> bool
    ensures { result ≡ decimal b }
{
    b.is_ascii_digit()
}

pub fn is_hex(b: u8) -> bool
    ensures { result ≡ hex b }
{
    b.is_ascii_hexdigit()
}

pub fn is_binary(b: u8) -> bool
    ensures { result ≡ binary b }
{
    matches!(b, b'0' | b'1')
}

pub fn is_graphic(b: u8) -> bool
    ensures { result ≡ graphic b }
{
    b.is_ascii_graphic()
}

// Neither a quote nor a backslash.
fn is_inside(b: u8) -> bool
    ensures { result ≡ inside b }
{
    b != b'"' && b != b'\\'
}

pub fn is_graphic_inside(b: u8) -> bool
    ensures { result ≡ graphic_inside b }
{
    is_graphic(b) && is_inside(b)
}

pub fn is_line_inside(b: u8) -> bool
    ensures { result ≡ line_inside b }
{
    !is_line_end(b) && is_inside(b)
}
