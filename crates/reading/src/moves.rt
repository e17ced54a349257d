// What is to be done at a spot, and what a finished node does to the frame that waited for it. Pure decisions. The hints
// make one function of a turn in the program, which is faster than to hand spots, frames and moves from one to the next.
ghost use Rattle.std.specs.Prelude.{◌≡◌, ◌+◌, ◌^◌, ◌<◌, ◌≤◌, Ok};
ghost use Rattle.tokens.specs.Looks.{level_of};
ghost use Rattle.grammar.specs.Grammar.{rank_by};
ghost use Rattle.reading.specs.Moves.{group_scope, made_of, finished_of, begin_of, go_of, type_of, decide_of, shut_of, next_item_of, item_of, close_of};

use super::frames::{Frame, Job, Left, Links, Move, Scope, Spot};
use grammar::heads::see_head;
use grammar::tails::{cast_followed, comma, kind_of, op_of, see_tail};
use grammar::{Head, Tail};
use hosts::Host;
use operators::{Infix, above, rank, rank_of_code};
use refusals::{Denial, Part, Refusal};
use tokens::window::Window;
use trees::{Kind, Label, Node};

// The rank of a node by its kind and op: 0 of one that is not infix.
#[inline(always)]
fn rank_by(kind: Kind, op: u32) -> u8
    ensures { result ≡ rank_by kind op }
{
    match kind {
        Kind::Binary => rank_of_code(op),
        Kind::Assign => rank(Infix::Assign),
        Kind::Range => rank(Infix::Range(false)),
        Kind::Cast => rank(Infix::Cast),
        _ => 0,
    }
}

// In a parenthesis, up to its closer.
#[inline(always)]
fn group_scope(close: usize) -> Scope
    ensures { result ≡ group_scope close }
{
    Scope {
        end: close,
        base: 0,
        structs: true,
    }
}

// Where the loop stands: all tokens, the spot among them, and the number of the node that comes next.
#[derive(Clone, Copy)]
pub struct Here<'p, 't> {
    pub all: Window<'p, 't>,
    pub at: Spot,
    pub count: usize,
    ghost within: { at.scope.end ≤ all.end },
}

impl<'p, 't> Here<'p, 't> {
    // The tokens from the spot up to the end of its level.
    #[inline(always)]
    fn level(self) -> Window<'p, 't>
        ensures page { result.page.now ≡ self.entry.all.page.now }
        ensures tokens { result.tokens.now ≡ self.entry.all.tokens.now }
        ensures place { result.place ≡ self.entry.at.place }
        ensures end { result.end ≡ self.entry.at.scope.end }
        ensures fits { result.end < 2 ^ 64 }
    {
        self.all.level(self.at.place, self.at.scope.end)
    }

    // The one maker of nodes: the node that comes next is written, and stands as an operand.
    #[inline(always)]
    fn made(self, label: Label, first: Option<usize>, scope: Scope) -> Move
        ensures { result ≡ made_of self.entry.count label first scope }
    {
        let rank = rank_by(label.kind, label.op);
        Move::Emit(
            Node {
                label,
                first,
                next: None,
            },
            Spot {
                place: label.to,
                scope,
                left: Left::Operand {
                    from: label.from,
                    rank,
                    root: self.count,
                },
            },
        )
    }

    // The node that a frame waited to write.
    #[inline(always)]
    fn finished(self, f: Frame, kind: Kind, op: u32, to: usize) -> Move
        ensures { result ≡ finished_of self.entry.count f kind op to }
    {
        let label = Label {
            kind,
            op,
            from: f.from,
            to,
        };
        self.made(label, f.links.first, f.scope)
    }

    // An operand begins.
    #[inline(always)]
    fn begin(self, head: Head) -> Move
        ensures { Ok result ≡ begin_of self.entry.count self.entry.at (Ok head) }
    {
        let Spot { place, scope, .. } = self.at;
        let waiting = Frame {
            from: place,
            scope,
            ..Frame::default()
        };
        match head {
            Head::Leaf(kind, to) => {
                let label = Label {
                    kind,
                    op: 0,
                    from: place,
                    to,
                };
                self.made(label, None, scope)
            }
            Head::Prefix {
                kind,
                op,
                operand_at,
                least_rank,
            } => {
                let job = Job::Operand(kind, op);
                let under = Scope {
                    base: least_rank,
                    ..scope
                };
                Move::Push(Frame { job, ..waiting }, Spot::new(operand_at, under))
            }
            Head::Group {
                inside_at,
                closer_at,
            } => {
                let job = Job::First;
                Move::Push(
                    Frame { job, ..waiting },
                    Spot::new(inside_at, group_scope(closer_at)),
                )
            }
        }
    }

    // An operand stands, with its root, and what follows it decides.
    #[inline(always)]
    fn go_on(self, from: usize, root: usize, tail: Tail) -> Move
        ensures { Ok result ≡ go_of self.entry.count self.entry.at from root (Ok tail) }
    {
        let scope = self.at.scope;
        let links = Links {
            first: Some(root),
            last: Some(root),
        };
        let waiting = Frame {
            job: Job::CastTo,
            from,
            scope,
            links,
        };
        match tail {
            Tail::Takes(op, place) => {
                let job = Job::Right(op);
                let under = Scope {
                    base: above(rank(op)),
                    ..scope
                };
                Move::Push(Frame { job, ..waiting }, Spot::new(place, under))
            }
            Tail::Endless(to) => {
                let label = Label {
                    kind: Kind::Range,
                    op: 0,
                    from,
                    to,
                };
                self.made(label, Some(root), scope)
            }
            Tail::Casts(place) => {
                let under = Scope { base: 0, ..scope };
                let left = Left::TypeWanted;
                Move::Push(
                    waiting,
                    Spot {
                        place,
                        scope: under,
                        left,
                    },
                )
            }
            Tail::Stop => Move::Ended(root),
        }
    }

    // A type, which the host reads.
    fn read_type<H: Host>(self, host: &H) -> Result<Move, Refusal>
        ensures { result ≡ type_of self.entry.count self.entry.at (H.reading host.now Part.TypeName (level_of self.entry.all.page.now self.entry.all.tokens.now self.entry.at.place self.entry.at.scope.end)) }
    {
        let from = self.at.place;
        let tokens = host.read(Part::TypeName, self.level()).map_err(|denial| Refusal::HostRefused(
            from,
            Part::TypeName,
            denial,
        ))?;
        let to = from + tokens;
        let label = Label {
            kind: Kind::TypeName,
            op: 0,
            from,
            to,
        };
        Ok(Move::Emit(
            Node {
                label,
                ..Node::default()
            },
            Spot {
                place: to,
                left: Left::Whole(self.count),
                ..self.at
            },
        ))
    }

    // What is to be done here.
    #[inline(always)]
    pub fn decide<H: Host>(self, host: &H) -> Result<Move, Refusal>
        ensures { result ≡ decide_of (H.reading host.now) self.entry.all.page.now self.entry.all.tokens.now self.entry.count self.entry.at }
    {
        let scope = self.at.scope;
        match self.at.left {
            Left::Nothing => {
                let head = see_head(host, self.level(), scope.structs)?;
                Ok(self.begin(head))
            }
            Left::TypeWanted => self.read_type(host),
            Left::Operand { from, rank, root } => {
                let tail = see_tail(self.level(), scope.structs, scope.base, rank)?;
                Ok(self.go_on(from, root, tail))
            }
            Left::Whole(root) => Ok(Move::Ended(root)),
        }
    }

    // Behind a comma: the closer, or a further item.
    #[inline(always)]
    fn next_item(self, f: Frame) -> Move
        requires before { self.at.place < self.at.scope.end }
        requires shut { self.at.scope.end < f.scope.end }
        ensures { result ≡ next_item_of self.entry.count f self.entry.at.place self.entry.at.scope.end }
    {
        let next = self.at.place + 1;
        let close = self.at.scope.end;
        if next == close {
            return self.finished(f, Kind::Tuple, 0, close + 1);
        }
        let job = Job::Item;
        Move::Push(Frame { job, ..f }, Spot::new(next, group_scope(close)))
    }

    // Behind an item: the closer, which makes a node of this kind, or a comma.
    #[inline(always)]
    fn item(self, f: Frame, kind: Kind) -> Result<Move, Refusal>
        requires inside { self.at.place ≤ self.at.scope.end }
        requires shut { self.at.scope.end < f.scope.end }
        ensures { result ≡ item_of self.entry.all.tokens.now self.entry.count kind f self.entry.at }
    {
        let end = self.at.scope.end;
        if self.at.place == end {
            return Ok(self.finished(f, kind, 0, end + 1));
        }
        if comma(self.level()) {
            return Ok(self.next_item(f));
        }
        Err(Refusal::MarkExpected(self.at.place))
    }

    // What the end of a node does to the frame that waited for it. Its job says what is left to do: jobs stand in lent
    // frames, where closures would ask for a heap.
    #[inline(always)]
    pub fn close(self, f: Frame) -> Result<Move, Refusal>
        requires inside { self.at.place ≤ self.at.scope.end }
        requires shut { self.at.scope.end + shut_of f.job ≤ f.scope.end }
        ensures { result ≡ close_of self.entry.all.tokens.now self.entry.count f self.entry.at }
    {
        let place = self.at.place;
        match f.job {
            Job::Operand(kind, op) => Ok(self.finished(f, kind, op, place)),
            Job::First => self.item(f, Kind::Paren),
            Job::Item => self.item(f, Kind::Tuple),
            Job::Right(op) => Ok(self.finished(f, kind_of(op), op_of(op), place)),
            Job::CastTo if cast_followed(self.level()) => Err(Refusal::CastFollowed(place)),
            Job::CastTo => Ok(self.finished(f, Kind::Cast, 0, place)),
        }
    }
}
