// The word that a name spells. Names are compared with the spellings of about their own length alone; for one match
// over all of them the proof did not close.
ghost use Rattle.std.specs.Prelude.{◌≡◌};
ghost use Rattle.pages.specs.Words.{word_of, spelled, spellings, within};

use tokens::Word;

// What a name of one to three bytes spells.
fn word_of_one_to_three(bytes: &[u8]) -> Word
    ensures { result ≡ spelled bytes.now (within 1 3 spellings) }
{
    match bytes {
        b"_" => Word::Underscore,
        b"as" => Word::As,
        b"if" => Word::If,
        b"for" => Word::For,
        b"let" => Word::Let,
        b"mut" => Word::Mut,
        b"raw" => Word::Raw,
        b"try" => Word::Try,
        b"do" | b"fn" | b"in" | b"box" | b"dyn" | b"mod" | b"pub" | b"ref" | b"use" =>
            Word::Reserved,
        _ => Word::Plain,
    }
}

// What a name of four bytes spells.
fn word_of_four(bytes: &[u8]) -> Word
    ensures { result ≡ spelled bytes.now (within 4 4 spellings) }
{
    match bytes {
        b"else" => Word::Else,
        b"loop" => Word::Loop,
        b"move" => Word::Move,
        b"self" => Word::SelfValue,
        b"Self" => Word::SelfType,
        b"true" => Word::True,
        b"enum" | b"impl" | b"priv" | b"type" => Word::Reserved,
        _ => Word::Plain,
    }
}

// What a name of five bytes spells.
fn word_of_five(bytes: &[u8]) -> Word
    ensures { result ≡ spelled bytes.now (within 5 5 spellings) }
{
    match bytes {
        b"async" => Word::Async,
        b"await" => Word::Await,
        b"break" => Word::Break,
        b"const" => Word::Const,
        b"crate" => Word::Crate,
        b"false" => Word::False,
        b"match" => Word::Match,
        b"super" => Word::Super,
        b"while" => Word::While,
        b"yield" => Word::Yield,
        b"final" | b"macro" | b"trait" | b"where" => Word::Reserved,
        _ => Word::Plain,
    }
}

// What a name of six bytes spells.
fn word_of_six(bytes: &[u8]) -> Word
    ensures { result ≡ spelled bytes.now (within 6 6 spellings) }
{
    match bytes {
        b"become" => Word::Become,
        b"return" => Word::Return,
        b"static" => Word::Static,
        b"unsafe" => Word::Unsafe,
        b"extern" | b"struct" | b"typeof" => Word::Reserved,
        _ => Word::Plain,
    }
}

// What a name of seven or eight bytes spells.
fn word_of_seven_or_eight(bytes: &[u8]) -> Word
    ensures { result ≡ spelled bytes.now (within 7 8 spellings) }
{
    match bytes {
        b"continue" => Word::Continue,
        b"unsized" | b"virtual" | b"abstract" | b"override" => Word::Reserved,
        _ => Word::Plain,
    }
}

// What a name spells.
pub fn word_of(bytes: &[u8]) -> Word
    ensures { result ≡ word_of bytes.now }
{
    match bytes.len() {
        1..=3 => word_of_one_to_three(bytes),
        4 => word_of_four(bytes),
        5 => word_of_five(bytes),
        6 => word_of_six(bytes),
        7..=8 => word_of_seven_or_eight(bytes),
        _ => Word::Plain,
    }
}
