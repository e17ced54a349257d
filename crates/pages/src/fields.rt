// A field of a page: a tag, a length in two bytes and a value.
ghost use Rattle.std.specs.Prelude.{◌≡◌, ◌+◌, ◌^◌, ◌<◌, ◌≤◌, length, Some, None, MatchResult};
ghost use Rattle.pages.specs.Fields.{tag_of, limits, mark_look, delimiter_of, open_look, close_look, look_of, tagged, headed, field_at};

use super::classes::{Class, class_of};
use super::values::{is_float, is_integer, is_name};
use super::words::word_of;
use refusals::Refusal;
use tokens::{Delimiter, Look, Token};

#[derive(Clone, Copy)]
enum Tag {
    Name,
    Mark,
    Integer,
    Float,
    // Any other literal.
    Literal,
    Lifetime,
    Opener,
    Closer,
}

// A byte that is no tag.
#[derive(Drop)]
struct UnknownTag;

// The kind of field that a tag byte names.
impl TryFrom<u8> for Tag {
    type Error = UnknownTag;

    ghost try_from_gives = { λ b r. MatchResult r (λ tag. tag_of b ≡ Some tag) (λ _. tag_of b ≡ None) };

    fn try_from(b: u8) -> Result<Tag, UnknownTag> {
        match b {
            1 => Ok(Tag::Name),
            2 => Ok(Tag::Mark),
            3 => Ok(Tag::Integer),
            4 => Ok(Tag::Float),
            5 => Ok(Tag::Literal),
            6 => Ok(Tag::Lifetime),
            7 => Ok(Tag::Opener),
            8 => Ok(Tag::Closer),
            _ => Err(UnknownTag),
        }
    }
}

impl Tag {
    // The shortest and the longest value under the tag.
    fn limits(self) -> (usize, usize)
        ensures { result ≡ limits self }
    {
        match self {
            Tag::Name | Tag::Lifetime => (1, 64),
            Tag::Mark => (2, 2),
            Tag::Integer => (1, 20),
            Tag::Float => (2, 40),
            Tag::Literal => (1, 1024),
            Tag::Opener | Tag::Closer => (1, 1),
        }
    }
}

// A mark's character, then 1 if it is joined to a next mark, else 0.
fn mark_look(bytes: &[u8]) -> Option<Look>
    ensures { result ≡ mark_look bytes.now }
{
    match bytes {
        [b, joined] if matches!(class_of(*b), Class::Mark) && *joined < 2 => {
            Some(Look::Mark(char::from(*b), *joined == 1))
        }
        _ => None,
    }
}

// The kind of a delimiter, of an opener or a closer. A function, since it answers for bytes that are neither.
fn delimiter_of(b: u8) -> Delimiter
    ensures { result ≡ delimiter_of b }
{
    match b {
        b'(' | b')' => Delimiter::Paren,
        b'[' | b']' => Delimiter::Bracket,
        _ => Delimiter::Brace,
    }
}

// How many tokens the group has is not known before its closer: the look has a number for it, and that is 0 until then.
fn open_look(bytes: &[u8]) -> Option<Look>
    ensures { result ≡ open_look bytes.now }
{
    match bytes {
        [b] if matches!(class_of(*b), Class::Opener) => Some(Look::Open(delimiter_of(*b), 0)),
        _ => None,
    }
}

// As `open_look`, but for the class and what is made: parameters for both would be no shorter.
fn close_look(bytes: &[u8]) -> Option<Look>
    ensures { result ≡ close_look bytes.now }
{
    match bytes {
        [b] if matches!(class_of(*b), Class::Closer) => Some(Look::Close(delimiter_of(*b))),
        _ => None,
    }
}

// The look of a value, if its bytes are allowed under the tag.
fn look_of(tag: Tag, bytes: &[u8]) -> Option<Look>
    ensures { result ≡ look_of tag bytes.now }
{
    match tag {
        Tag::Name if is_name(bytes) => Some(Look::Name(word_of(bytes))),
        Tag::Mark => mark_look(bytes),
        Tag::Integer if is_integer(bytes) => Some(Look::Integer),
        Tag::Float if is_float(bytes) => Some(Look::Float),
        Tag::Literal => Some(Look::Literal),
        Tag::Lifetime if is_name(bytes) => Some(Look::Lifetime),
        Tag::Opener => open_look(bytes),
        Tag::Closer => close_look(bytes),
        _ => None,
    }
}

// The field at this place with this tag and length, over the bytes behind its head.
fn read_value(at: usize, tag: Tag, len: usize, rest: &[u8]) -> Result<Token, Refusal>
    requires { at + 3 < 2 ^ 64 }
    ensures { result ≡ tagged at (Some tag) len rest.now }
{
    let (least, most) = tag.limits();
    if len < least || len > most {
        return Err(Refusal::BadField(at));
    }
    if len > rest.len() {
        return Err(Refusal::CutShort(at));
    }
    let look = look_of(tag, &rest[..len]).ok_or(Refusal::BadField(at))?;
    Ok(Token {
        look,
        start: at + 3,
        len,
    })
}

// The field at this place, over the bytes from there on.
fn read_field(at: usize, bytes: &[u8]) -> Result<Token, Refusal>
    requires { at + length bytes.now < 2 ^ 64 }
    ensures { result ≡ headed at bytes.now }
{
    let [tag, high, low, rest @ ..] = bytes else {
        return Err(Refusal::CutShort(at));
    };
    let tag = Tag::try_from(*tag).map_err(|_| Refusal::BadField(at))?;
    let len = usize::from(u16::from_be_bytes([*high, *low]));
    read_value(at, tag, len, rest)
}

// The token of the field that begins at a byte of the page.
pub fn field_at(page: &[u8], at: usize) -> Result<Token, Refusal>
    requires { at ≤ length page.now }
    ensures { result ≡ field_at page.now at }
{
    read_field(at, &page[at..])
}
