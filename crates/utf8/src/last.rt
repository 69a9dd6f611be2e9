// The last character, found from the end.
ghost use Rattle.std.specs.Prelude.{◌≡◌};
ghost use Rattle.utf8.specs.WellFormed.{WellFormed};
ghost use Rattle.utf8.specs.Last.{last_char};

// The offset of the last character, 0 in an empty text: that of the last byte that is no continuation byte.
pub fn last_char(source: &[u8]) -> usize
    requires { WellFormed source.now }
    ensures { result ≡ last_char source.now }
{
    source
        .iter()
        .rposition(|b| !matches!(b, 0x80..=0xBF))
        .unwrap_or(0)
}
