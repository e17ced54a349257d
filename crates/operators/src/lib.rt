// The infix operators of a rule: how they are spelled in single characters, and how strongly they bind.
#![tactic(auto)]

ghost use Rattle.std.specs.Prelude.{◌≡◌, ◌+◌, ◌<◌, ◌≤◌, true, if◌then◌else◌};
ghost use Rattle.tokens.specs.Looks.{mark_in};
ghost use Rattle.operators.specs.Codes.{code_of};
ghost use Rattle.operators.specs.Ranges.{ends_range, range_ends};
ghost use Rattle.operators.specs.Ranks.{rank_of, rank_of_code, ranked, above_rank, left_keeps};
ghost use Rattle.operators.specs.Signs.{spellings, first_of, sign_at, GoodSign};
ghost use Rattle.operators.specs.Spellings.{next_in, shows, spelled_by};
ghost use Rattle.operators.specs.declared.Infix.TheVariants.{Binary};
ghost use Rattle.operators.specs.declared.Sign.TheVariants.{Operator};

use tokens::window::Window;
use tokens::{Delimiter, Look, Word};

// A binary operator, with its code. The codes are, from 1:
// + - * / % && || ^ & | << >> == < <= != >= > += -= *= /= %= ^= &= |= <<= >>=
#[derive(Clone, Copy, PartialEq, Eq)]
pub enum BinaryOp {
    Add = 1,
    Sub,
    Mul,
    Div,
    Rem,
    And,
    Or,
    BitXor,
    BitAnd,
    BitOr,
    Shl,
    Shr,
    Eq,
    Lt,
    Le,
    Ne,
    Ge,
    Gt,
    AddAssign,
    SubAssign,
    MulAssign,
    DivAssign,
    RemAssign,
    BitXorAssign,
    BitAndAssign,
    BitOrAssign,
    ShlAssign,
    ShrAssign,
}

impl BinaryOp {
    // The number by which the operator is known in a node. A method, since `u8::from` would not say so.
    pub fn code(self) -> u8
        ensures value { result ≡ code_of self }
        ensures within { (1 ≤ result) × (result ≤ 28) }
    {
        self as u8
    }
}

// An infix operator: a binary one, `=`, the limits of a range (closed: `..=`), or `as`.
#[derive(Clone, Copy, PartialEq, Eq)]
pub enum Infix {
    Binary(BinaryOp),
    Assign,
    Range(bool),
    Cast,
}

// What stands at a place where an operator may stand.
#[derive(Clone, Copy, PartialEq, Eq)]
pub enum Sign {
    // An operator and how many tokens spell it.
    Operator(Infix, usize),
    // `...`
    ThreeDots,
    // `<-`
    LeftArrow,
}

// The ranks of the binary operators, by their codes from 1: a table, so that one rule is proved over all its rows.
const RANKS: [u8; 28] = [
    10, // +
    10, // -
    11, // *
    11, // /
    11, // %
    4, // &&
    3, // ||
    7, // ^
    8, // &
    6, // |
    9, // <<
    9, // >>
    5, // ==
    5, // <
    5, // <=
    5, // !=
    5, // >=
    5, // >
    1, // +=
    1, // -=
    1, // *=
    1, // /=
    1, // %=
    1, // ^=
    1, // &=
    1, // |=
    1, // <<=
    1, // >>=
];

// The table, with the rule that it keeps.
fn ranks() -> [u8; 28]
    ensures { ranked 1 result ≡ true }
{
    RANKS
}

// The rank of the binary operator with a code, and 0 for a code that none has: a rank below all others, as that of a
// node that is not infix.
#[tactic(auto, using(crate::proofs::Table::ranked_at, crate::proofs::Table::rank_within))]
pub fn rank_of_code(code: u32) -> u8
    ensures value { result ≡ rank_of_code code }
    ensures within { result ≤ 12 }
{
    match code {
        1..=28 => ranks()[code as usize - 1],
        _ => 0,
    }
}

// How strongly an operator binds, from 1 to 12.
pub fn rank(op: Infix) -> u8
    ensures value { result ≡ rank_of op }
    ensures within { result ≤ 12 }
{
    match op {
        Infix::Binary(op) => rank_of_code(u32::from(op.code())),
        Infix::Assign => 1,
        Infix::Range(_) => 2,
        Infix::Cast => 12,
    }
}

// The least rank that the right operand of an operator may have.
pub fn above(rank: u8) -> u8
    requires { rank < 255 }
    ensures { result ≡ above_rank rank }
{
    if rank == 1 { 1 } else { rank + 1 }
}

// Whether a left operand of a rank (0: no infix operator) may stand under an operator of the rank `parent`. Ranks are
// plain numbers, as the binding rule's table has them, and 0 lies below every one of them.
pub fn left_keeps(left: u8, parent: u8) -> bool
    ensures { result ≡ left_keeps left parent }
{
    match parent {
        1 | 5 => left == 0 || left > parent,
        _ => left == 0 || left >= parent,
    }
}

// What stands at a place. The place is a parameter, here and below, as the definitions have it, which speak of places
// further on too; and public calls keep their parameters.
#[tactic(auto, unfolding(crate::specs::Signs::sign_at))]
pub fn sign_at(level: Window, i: usize) -> Option<Sign>
    ensures value { result ≡ sign_at level.entry.tokens.now level.entry.end i }
    ensures good { GoodSign i level.entry.end result }
{
    match level.look(i) {
        Some(Look::Mark(first, _)) => marks_sign(first, next(level, i), next(level, i + 1)),
        Some(Look::Name(Word::As)) => Some(Sign::Operator(Infix::Cast, 1)),
        _ => None,
    }
}

// The mark to which the one at a place is joined.
fn next(level: Window, i: usize) -> Option<char>
    ensures { result ≡ next_in level.entry.tokens.now level.entry.end i }
{
    if level.joined(i) {
        level.mark(i + 1)
    } else {
        None
    }
}

// What a mark begins, given the one that it is joined to, and the one that that is joined to.
fn marks_sign(first: char, second: Option<char>, third: Option<char>) -> Option<Sign>
    ensures { result ≡ first_of (spelled_by first second third) spellings None }
{
    match (first, second) {
        // The arrows `->` and `=>` are no operators.
        ('-' | '=', Some('>')) => None,
        ('<', Some('-')) => Some(Sign::LeftArrow),
        ('&', Some('&')) => binary(BinaryOp::And, 2),
        ('|', Some('|')) => binary(BinaryOp::Or, 2),
        ('<', Some('<')) => equals_or(third, 2, BinaryOp::ShlAssign, BinaryOp::Shl),
        ('>', Some('>')) => equals_or(third, 2, BinaryOp::ShrAssign, BinaryOp::Shr),
        ('=', Some('=')) => binary(BinaryOp::Eq, 2),
        ('!', Some('=')) => binary(BinaryOp::Ne, 2),
        ('.', Some('.')) => dots_sign(third),
        ('+', _) => equals_or(second, 1, BinaryOp::AddAssign, BinaryOp::Add),
        ('-', _) => equals_or(second, 1, BinaryOp::SubAssign, BinaryOp::Sub),
        ('*', _) => equals_or(second, 1, BinaryOp::MulAssign, BinaryOp::Mul),
        ('/', _) => equals_or(second, 1, BinaryOp::DivAssign, BinaryOp::Div),
        ('%', _) => equals_or(second, 1, BinaryOp::RemAssign, BinaryOp::Rem),
        ('^', _) => equals_or(second, 1, BinaryOp::BitXorAssign, BinaryOp::BitXor),
        ('&', _) => equals_or(second, 1, BinaryOp::BitAndAssign, BinaryOp::BitAnd),
        ('|', _) => equals_or(second, 1, BinaryOp::BitOrAssign, BinaryOp::BitOr),
        ('<', _) => equals_or(second, 1, BinaryOp::Le, BinaryOp::Lt),
        ('>', _) => equals_or(second, 1, BinaryOp::Ge, BinaryOp::Gt),
        ('=', _) => Some(Sign::Operator(Infix::Assign, 1)),
        _ => None,
    }
}

// What begins with two dots, given the mark to which the second is joined.
fn dots_sign(third: Option<char>) -> Option<Sign>
    ensures { result ≡ first_of (spelled_by 46 (Some 46) third) spellings None }
{
    Some(match third {
        Some('=') => Sign::Operator(Infix::Range(true), 3),
        Some('.') => Sign::ThreeDots,
        _ => Sign::Operator(Infix::Range(false), 2),
    })
}

// A binary operator that so many marks spell, or the one that they spell with `=`, where the next mark is that.
fn equals_or(
    next: Option<char>,
    marks: usize,
    with_equals: BinaryOp,
    without: BinaryOp,
) -> Option<Sign>
    requires { marks < 3 }
    ensures { result ≡ Some (if shows next 61 then Operator (Binary with_equals) (marks + 1) else Operator (Binary without) marks) }
{
    if next == Some('=') {
        binary(with_equals, marks + 1)
    } else {
        binary(without, marks)
    }
}

// A binary operator, spelled in so many tokens.
fn binary(op: BinaryOp, tokens: usize) -> Option<Sign>
    ensures { result ≡ Some (Operator (Binary op) tokens) }
{
    Some(Sign::Operator(Infix::Binary(op), tokens))
}

// Whether a half-open range `..` has no end because of what stands at a place. Where `structs` is false, a `{` group is
// no part of the range.
#[tactic(auto, unfolding(crate::specs::Ranges::range_ends))]
pub fn range_ends(level: Window, i: usize, structs: bool) -> bool
    ensures { result ≡ range_ends level.entry.tokens.now level.entry.end i structs }
{
    match level.look(i) {
        None | Some(Look::Name(Word::As)) => true,
        Some(Look::Open(Delimiter::Brace, _)) => !structs,
        Some(Look::Mark(first, _)) => mark_ends(level, i, first),
        _ => false,
    }
}

// Whether it has none because of the mark there.
fn mark_ends(level: Window, i: usize, first: char) -> bool
    requires { mark_in level.tokens.now level.end i ≡ Some first }
    ensures { result ≡ ends_range level.entry.tokens.now level.entry.end i true }
{
    match first {
        ',' | ';' | '?' | '=' | '+' | '/' | '%' | '^' | '>' => true,
        '.' => !level.two(i, '.', '.'),
        '<' => level.two(i, '<', '=') || level.three(i, '<', '<', '='),
        '!' | '-' | '*' | '&' | '|' => level.two(i, first, '='),
        _ => false,
    }
}
