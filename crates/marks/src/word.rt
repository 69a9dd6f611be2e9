// The word that an identifier's text is: one of the grammar's sixteen, or `use` or `extern`.
ghost use Rattle.std.specs.Prelude.{◌≡◌, length};
ghost use Rattle.marks.specs.Code.{text_number, found_number};

use grammar::words::Word;

// The word that a text is, if it is one. The length is tested once, before any byte: only words of that length are looked at then.
#[tactic(auto, using(crate::proofs::Texts::none_as_long))]
pub fn word_of(text: &[u8]) -> Option<Word>
    ensures { found_number result ≡ text_number text.now }
{
    match text.len() {
        2 => of_two(text),
        3 => of_three(text),
        4 => of_four(text),
        5 => of_five(text),
        6 => of_six(text),
        7 => of_seven(text),
        9 => of_nine(text),
        _ => None,
    }
}

#[tactic(auto, using(crate::proofs::Texts::spelled, crate::proofs::Texts::none_of_length))]
fn of_two(text: &[u8]) -> Option<Word>
    requires { length text.now ≡ 2 }
    ensures { found_number result ≡ text_number text.now }
{
    match text {
        b"do" => Some(Word::Do),
        b"if" => Some(Word::If),
        _ => None,
    }
}

#[tactic(auto, using(crate::proofs::Texts::spelled, crate::proofs::Texts::none_of_length))]
fn of_three(text: &[u8]) -> Option<Word>
    requires { length text.now ≡ 3 }
    ensures { found_number result ≡ text_number text.now }
{
    match text {
        b"end" => Some(Word::End),
        b"mod" => Some(Word::Mod),
        b"pub" => Some(Word::Pub),
        b"use" => Some(Word::Use),
        _ => None,
    }
}

#[tactic(auto, using(crate::proofs::Texts::spelled, crate::proofs::Texts::none_of_length))]
fn of_four(text: &[u8]) -> Option<Word>
    requires { length text.now ≡ 4 }
    ensures { found_number result ≡ text_number text.now }
{
    match text {
        b"else" => Some(Word::Else),
        b"enum" => Some(Word::Enum),
        b"proc" => Some(Word::Proc),
        b"type" => Some(Word::Type),
        _ => None,
    }
}

#[tactic(auto, using(crate::proofs::Texts::spelled, crate::proofs::Texts::none_of_length))]
fn of_five(text: &[u8]) -> Option<Word>
    requires { length text.now ≡ 5 }
    ensures { found_number result ≡ text_number text.now }
{
    match text {
        b"begin" => Some(Word::Begin),
        b"const" => Some(Word::Const),
        b"while" => Some(Word::While),
        _ => None,
    }
}

#[tactic(auto, using(crate::proofs::Texts::spelled, crate::proofs::Texts::none_of_length))]
fn of_six(text: &[u8]) -> Option<Word>
    requires { length text.now ≡ 6 }
    ensures { found_number result ≡ text_number text.now }
{
    match text {
        b"repeat" => Some(Word::Repeat),
        b"extern" => Some(Word::Extern),
        _ => None,
    }
}

#[tactic(auto, using(crate::proofs::Texts::spelled, crate::proofs::Texts::none_of_length))]
fn of_seven(text: &[u8]) -> Option<Word>
    requires { length text.now ≡ 7 }
    ensures { found_number result ≡ text_number text.now }
{
    match text {
        b"adv_map" => Some(Word::AdvMap),
        b"package" => Some(Word::Package),
        _ => None,
    }
}

#[tactic(auto, using(crate::proofs::Texts::spelled, crate::proofs::Texts::none_of_length))]
fn of_nine(text: &[u8]) -> Option<Word>
    requires { length text.now ≡ 9 }
    ensures { found_number result ≡ text_number text.now }
{
    match text {
        b"namespace" => Some(Word::Namespace),
        _ => None,
    }
}
