// What the loop keeps: frames for nodes that are not finished, and the spot where it stands.
ghost use Rattle.std.specs.Prelude.{◌≡◌};

use operators::Infix;
use trees::{Kind, Node};

// What an unfinished node waits for. Each line shows a rule that needs it.
#[derive(Clone, Copy, Default)]
pub enum Job {
    // - x: the operand of a node of this kind and op, which are a label's as soon as its end is known
    Operand(Kind, u32),
    // ( x ): the first thing in a parenthesis
    #[default]
    First,
    // ( a, x ): a further item of a tuple
    Item,
    // a + x: the right operand
    Right(Infix),
    // a as x: the type
    CastTo,
}

// The numbers of the first and the last child so far.
#[derive(Clone, Copy, Default)]
pub struct Links {
    pub first: Option<usize>,
    pub last: Option<usize>,
}

// What an operand is read under: where its level ends, the least rank of an operator, and the struct flag.
#[derive(Clone, Copy, Default)]
pub struct Scope {
    pub end: usize,
    pub base: u8,
    pub structs: bool,
}

// An unfinished node: where it began, and the scope to go back to.
#[derive(Clone, Copy, Default)]
pub struct Frame {
    pub job: Job,
    pub from: usize,
    pub scope: Scope,
    pub links: Links,
}

// What stands left of the place.
#[derive(Clone, Copy)]
pub enum Left {
    // Nothing: an operand is to begin. A state like the others, each of which says what comes next.
    Nothing,
    // `as`: a type is to begin.
    TypeWanted,
    // An operand, by its start, its rank (0: not infix) and the number of its root.
    Operand { from: usize, rank: u8, root: usize },
    // Something that takes no operator, by the number of its root.
    Whole(usize),
}

#[derive(Clone, Copy)]
pub struct Spot {
    pub place: usize,
    pub scope: Scope,
    pub left: Left,
}

impl Spot {
    // A spot where an operand is to begin. The hint is one of those of `moves`.
    #[inline(always)]
    pub fn new(place: usize, scope: Scope) -> Spot
        ensures { result ≡ record { place = place; scope = scope; left = Left.Nothing } }
    {
        Spot {
            place,
            scope,
            left: Left::Nothing,
        }
    }
}

// What is to be done at a spot.
#[derive(Clone, Copy)]
pub enum Move {
    // Begin a node that waits, and go to a spot.
    Push(Frame, Spot),
    // Write a node, and go to a spot.
    Emit(Node, Spot),
    // What was begun last has ended, with this root.
    Ended(usize),
}
