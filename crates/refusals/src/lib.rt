// Every way in which a call can be refused, with its number, its place and what a host adds to it.
#![tactic(auto)]

ghost use Rattle.std.specs.Prelude.{◌≡◌, Some};
ghost use Rattle.refusals.specs.Refusals.{number_of, place_of, denied_of, host_of, part_of, code_of, part_number, refusal_text};

use std::error::Error;
use std::fmt;

// What a reading asks of a host, with its number.
#[derive(Clone, Copy, PartialEq, Eq, Debug)]
pub enum Part {
    Path = 1,
    TypeName,
    Pattern,
    Block,
    Keyword,
    Arguments,
}

impl Part {
    // Methods answer the numbers, here and below, since `u8::from` would not say which of them.
    pub fn number(self) -> u8
        ensures { result ≡ part_number self }
    {
        self as u8
    }
}

// A host's refusal: the number of the host that gave it and a code of its own. Anybody may write a host, so that no enum
// could have all codes.
#[derive(Clone, Copy, PartialEq, Eq, Debug)]
pub struct Denial {
    pub host: u8,
    pub code: u8,
}

// Places of the first four are bytes of the page, of the others tokens; a full sheet, a thing that is not there and a
// short output have none, which is 0, as the line of a refusal has it.
#[derive(Clone, Copy, PartialEq, Eq, Debug)]
pub enum Refusal {
    // A field's head or value runs past the page.
    CutShort(usize),
    // A field with an unknown tag, a wrong length or a byte that is not allowed.
    BadField(usize),
    // A closer that fits no opener, or an opener that is never closed.
    Unbalanced(usize),
    // No room for the token of this field.
    TooManyTokens(usize),
    // Fewer free nodes than tokens, or no free rule.
    SheetFull,
    ExpressionExpected(usize),
    // A certain mark or group was expected.
    MarkExpected(usize),
    MemberExpected(usize),
    // A comparison directly left of a comparison.
    ComparisonChained(usize),
    // The left operand would break the binding rule.
    BindingBroken(usize),
    // A cast before `.`, `?`, `[` or `(`.
    CastFollowed(usize),
    // `<-` where an operator may stand.
    LeftArrow(usize),
    // `...` as the limits of a range.
    ThreeDots(usize),
    // The label of a `break` before `:`.
    LabelColon(usize),
    // Tokens left over in a group or on the page.
    LeftOver(usize),
    // The host refused a part.
    HostRefused(usize, Part, Denial),
    // No such rule, node or token.
    NotThere,
    // The output is shorter than 32 bytes.
    OutputShort,
}

impl Refusal {
    pub fn number(self) -> u8
        ensures { result ≡ number_of self }
    {
        match self {
            Refusal::CutShort(_) => 1,
            Refusal::BadField(_) => 2,
            Refusal::Unbalanced(_) => 3,
            Refusal::TooManyTokens(_) => 4,
            Refusal::SheetFull => 5,
            Refusal::ExpressionExpected(_) => 6,
            Refusal::MarkExpected(_) => 7,
            Refusal::MemberExpected(_) => 8,
            Refusal::ComparisonChained(_) => 9,
            Refusal::BindingBroken(_) => 10,
            Refusal::CastFollowed(_) => 11,
            Refusal::LeftArrow(_) => 12,
            Refusal::ThreeDots(_) => 13,
            Refusal::LabelColon(_) => 14,
            Refusal::LeftOver(_) => 15,
            Refusal::HostRefused(_, _, _) => 16,
            Refusal::NotThere => 17,
            Refusal::OutputShort => 18,
        }
    }

    pub fn place(self) -> usize
        ensures { result ≡ place_of self }
    {
        match self {
            Refusal::CutShort(at)
            | Refusal::BadField(at)
            | Refusal::Unbalanced(at)
            | Refusal::TooManyTokens(at)
            | Refusal::ExpressionExpected(at)
            | Refusal::MarkExpected(at)
            | Refusal::MemberExpected(at)
            | Refusal::ComparisonChained(at)
            | Refusal::BindingBroken(at)
            | Refusal::CastFollowed(at)
            | Refusal::LeftArrow(at)
            | Refusal::ThreeDots(at)
            | Refusal::LabelColon(at)
            | Refusal::LeftOver(at)
            | Refusal::HostRefused(at, _, _) => at,
            Refusal::SheetFull | Refusal::NotThere | Refusal::OutputShort => 0,
        }
    }

    // What a host refused, and how.
    fn denied(self) -> Option<(Part, Denial)>
        ensures { result ≡ denied_of self }
    {
        match self {
            Refusal::HostRefused(_, part, denial) => Some((part, denial)),
            _ => None,
        }
    }

    // The number of the host that refused, and 0 where none did, here and below: so the line of a refusal has it.
    pub fn host(self) -> u8
        ensures { result ≡ host_of self }
    {
        self.denied().map_or(0, |(_, denial)| denial.host)
    }

    // The number of the part that was refused, or 0.
    pub fn part(self) -> u8
        ensures { result ≡ part_of self }
    {
        self.denied().map_or(0, |(part, _)| part.number())
    }

    // The host's code, or 0.
    pub fn code(self) -> u8
        ensures { result ≡ code_of self }
    {
        self.denied().map_or(0, |(_, denial)| denial.code)
    }
}

// The line of a refusal, without its line feed.
impl fmt::Display for Refusal {
    ghost output = { λ r. Some (refusal_text r) };

    fn fmt<W: fmt::Write>(&self, f: &mut fmt::Formatter<W>) -> fmt::Result {
        let number = self.number();
        let place = self.place();
        let host = self.host();
        let part = self.part();
        let code = self.code();
        write!(f, "refused {number} {place} {host} {part} {code}")
    }
}

impl Error for Refusal {}
