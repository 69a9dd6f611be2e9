// What the lexer reads, and where it stands.
ghost use Rattle.std.specs.Prelude.{◌≡◌, ◌≤◌, length};

// The tokens of a source, from an offset on.
#[derive(Drop)]
pub struct Lexer<'a> {
    pub source: &'a [u8],
    pub offset: usize,
    pub ghost within: { offset ≤ length source.now },
}

impl<'a> Lexer<'a> {
    pub fn new(source: &'a [u8]) -> Lexer<'a>
        ensures source_is { result.source.now ≡ source.now }
        ensures at_start { result.offset ≡ 0 }
    {
        Lexer { source, offset: 0 }
    }
}
