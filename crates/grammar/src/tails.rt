// What follows an operand: an operator that takes it, the end of what is read here, or a refusal.
ghost use Rattle.std.specs.Prelude.{◌≡◌, ◌+◌, ◌≤◌};
ghost use Rattle.operators.specs.declared.Sign.TheVariants.{Operator};
ghost use Rattle.grammar.specs.Tails.{takes, tail_of, tail_at};
ghost use Rattle.grammar.specs.Grammar.{kind_of, op_of, comma_at, cast_followed};

use super::{COMPARISON, OPERAND_ONLY, RANGE, RANGE_END, Tail};
use operators::{Infix, Sign, left_keeps, range_ends, rank, sign_at};
use refusals::Refusal;
use tokens::window::Window;
use tokens::{Delimiter, Look};
use trees::Kind;

// An operator at the window's place, spelled in so many tokens, and whether a path before `{` is a struct there.
#[derive(Clone, Copy)]
struct Standing<'p, 't> {
    level: Window<'p, 't>,
    structs: bool,
    op: Infix,
    marks: usize,
    ghost within: { level.place + marks ≤ level.end },
}

impl<'p, 't> Standing<'p, 't> {
    // It takes the left operand; a half-open range may lack its end.
    fn takes(self) -> Tail
        ensures { result ≡ takes self.entry.level.tokens.now self.entry.structs self.entry.level.place self.entry.level.end self.entry.op self.entry.marks }
    {
        let next = self.level.place() + self.marks;
        match self.op {
            Infix::Cast => Tail::Casts(next),
            Infix::Range(false) if range_ends(self.level, next, self.structs) => Tail::Endless(
                next,
            ),
            op => Tail::Takes(op, next),
        }
    }

    // What it does behind a left operand of rank `left`, where ranks from `base` on are taken.
    fn tail(self, base: u8, left: u8) -> Result<Tail, Refusal>
        ensures { result ≡ tail_of self.entry.level.tokens.now self.entry.structs base left self.entry.level.place self.entry.level.end (Some (Operator self.entry.op self.entry.marks)) }
    {
        let own = rank(self.op);
        if own < base {
            return Ok(Tail::Stop);
        }
        if left == COMPARISON && own == COMPARISON {
            return Err(Refusal::ComparisonChained(self.level.place()));
        }
        if left_keeps(left, own) {
            return Ok(self.takes());
        }
        Err(Refusal::BindingBroken(self.level.place()))
    }
}

// What stands at the window's place, behind a left operand of rank `left` (0: not infix), where
// ranks from `base` on are taken.
pub fn see_tail(level: Window, structs: bool, base: u8, left: u8) -> Result<Tail, Refusal>
    ensures { result ≡ tail_at level.entry.tokens.now structs base left level.entry.place level.entry.end }
{
    let place = level.place();
    if left == RANGE {
        return Ok(Tail::Stop);
    }
    match sign_at(level, place) {
        None => Ok(Tail::Stop),
        Some(Sign::Operator(op, marks)) => {
            let standing = Standing {
                level,
                structs,
                op,
                marks,
            };
            standing.tail(base, left)
        }
        Some(Sign::ThreeDots) if RANGE < base => Ok(Tail::Stop),
        Some(Sign::ThreeDots) => Err(Refusal::ThreeDots(place)),
        Some(Sign::LeftArrow) => match (base, left) {
            (OPERAND_ONLY, _) | (RANGE_END, 0) => Ok(Tail::Stop),
            _ => Err(Refusal::LeftArrow(place)),
        },
    }
}

// Whether a comma stands at the window's place.
pub fn comma(level: Window) -> bool
    ensures { result ≡ comma_at level.entry.tokens.now level.entry.place level.entry.end }
{
    level.mark(level.place()) == Some(',')
}

// Whether at the window's place stands what may not follow a cast.
pub fn cast_followed(level: Window) -> bool
    ensures { result ≡ cast_followed level.entry.tokens.now level.entry.place level.entry.end }
{
    let place = level.place();
    match level.mark(place) {
        Some('.') => !level.two(place, '.', '.'),
        Some('?') => true,
        _ => matches!(
            level.look(place),
            Some(Look::Open(Delimiter::Paren | Delimiter::Bracket, _)),
        ),
    }
}

// The kind of the node that an operator makes. A function, here and below, since `From` would not say what of the node
// it is.
pub fn kind_of(op: Infix) -> Kind
    ensures { result ≡ kind_of op }
{
    match op {
        Infix::Binary(_) => Kind::Binary,
        Infix::Assign => Kind::Assign,
        Infix::Range(_) => Kind::Range,
        Infix::Cast => Kind::Cast,
    }
}

// The op of the node that an operator makes.
pub fn op_of(op: Infix) -> u32
    ensures { result ≡ op_of op }
{
    match op {
        Infix::Binary(op) => u32::from(op.code()),
        Infix::Range(true) => 1,
        _ => 0,
    }
}
