// The loop: decides, pushes frames and writes nodes, turn by turn. The hints are those of `moves`.
ghost use Rattle.std.specs.Prelude.{◌≡◌, ◌+◌, ◌≤◌, List, length, Ok};
ghost use Rattle.lists.specs.Lists.{items, used, room, Lent};
ghost use Rattle.trees.specs.declared.Node.{Node};
ghost use Rattle.grammar.specs.Grammar.{Outcome, expr, read_task, answer};
ghost use Rattle.reading.specs.Machine.{attached, link_to, LastIn, Sound, Kept, Ready, RoomFor, Applied, StillIn, Read};

use super::frames::{Frame, Left, Links, Move, Scope, Spot};
use super::moves::Here;
use hosts::Host;
use lists::Counted;
use refusals::Refusal;
use tokens::window::Window;
use trees::Node;

// Does what was decided, a plain value: a frame or a node more, for which there is room. Frames and nodes stay two
// parameters, here and below, since what a struct of both wrote behind its `&mut` to the nodes would not be known once
// it ends.
#[inline(always)]
fn apply(step: Move, frames: &mut Counted<Frame>, nodes: &mut Counted<Node>) -> Option<Spot>
    requires room { RoomFor (Ok step) (used frames.old) (room frames.old) (used nodes.old) (room nodes.old) }
    requires frames { used frames.old ≤ room frames.old }
    requires nodes { used nodes.old ≤ room nodes.old }
    ensures applied { Applied (Ok step) (items frames.old) (items frames.new) (items nodes.old) (items nodes.new) (Ok result) }
    ensures frames { StillIn frames.old frames.new }
    ensures nodes { StillIn nodes.old nodes.new }
{
    match step {
        Move::Push(f, next) => {
            let _ = frames.push(f);
            Some(next)
        }
        Move::Emit(n, next) => {
            let _ = nodes.push(n);
            Some(next)
        }
        Move::Ended(_) => None,
    }
}

// The node at `root` becomes the last child of a frame with these links, and the sibling of the last one so far.
#[inline(always)]
fn attach(links: Links, root: usize, nodes: &mut Counted<Node>) -> Links
    requires last { LastIn links.last (used nodes.old) }
    requires nodes { used nodes.old ≤ room nodes.old }
    ensures value { result ≡ attached links root }
    ensures items { items nodes.new ≡ link_to (items nodes.old) links.last root }
    ensures count { used nodes.new ≡ used nodes.old }
    ensures nodes { StillIn nodes.old nodes.new }
{
    if let Some(l) = links.last {
        let node = nodes.get(l);
        nodes.put(
            l,
            Node {
                next: Some(root),
                ..node
            },
        );
    }
    Links {
        first: links.first.or(Some(root)),
        last: Some(root),
    }
}

// One turn: what is decided is done, and a node that has ended is handed to the frame that waited for it. Answers the
// next spot, or that the whole has ended.
#[inline(always)]
fn turn_once<H: Host>(
    host: &H,
    all: Window,
    at: Spot,
    frames: &mut Counted<Frame>,
    nodes: &mut Counted<Node>,
) -> Result<Option<Spot>, Refusal>
    requires ready { Ready (H.reading host.now) all.page.now all.tokens.now all.end (items nodes.old) (items frames.old) at (room frames.old) (room nodes.old) }
    requires frames { used frames.old ≤ room frames.old }
    requires nodes { used nodes.old ≤ room nodes.old }
    ensures kept { (o : Outcome) (S : List Node) → Sound (H.reading host.now) all.entry.page.now all.entry.tokens.now all.entry.end o S (items nodes.old) (items frames.old) at → Kept (H.reading host.now) all.entry.page.now all.entry.tokens.now all.entry.end o S (items frames.old) at (items nodes.new) (items frames.new) result }
    ensures frames { StillIn frames.old frames.new }
    ensures nodes { StillIn nodes.old nodes.new }
{
    let count = nodes.count();
    let step = Here { all, at, count }.decide(host)?;
    let Move::Ended(root) = step else {
        return Ok(apply(step, frames, nodes));
    };
    let Some(f) = frames.pop() else {
        return Ok(None);
    };
    let links = attach(f.links, root, nodes);
    let count = nodes.count();
    let next = Here { all, at, count }.close(Frame { links, ..f })?;
    Ok(apply(next, frames, nodes))
}

// Reads one expression from the window's place on, and writes its nodes behind those that stand. There is a frame and
// a node for each token, so that none is ever missing. Answers where the reading stopped.
pub fn read_expr<H: Host>(
    host: &H,
    level: Window,
    structs: bool,
    stack: &mut [Frame],
    nodes: &mut Counted<Node>,
) -> Result<usize, Refusal>
    requires inside { level.place ≤ level.end }
    requires stack { level.end ≤ length stack.old }
    requires nodes { used nodes.old + level.end ≤ room nodes.old }
    ensures value { result ≡ answer (read_task (H.reading host.now) level.entry.page.now level.entry.tokens.now (expr structs 0 level.entry.place level.entry.end)) }
    ensures written { Read (read_task (H.reading host.now) level.entry.page.now level.entry.tokens.now (expr structs 0 level.entry.place level.entry.end)) (items nodes.old) (items nodes.new) }
    ensures room { room nodes.new ≡ room nodes.old }
    ensures within { used nodes.new ≤ room nodes.new }
    ensures lent { Lent nodes.old nodes.new }
{
    let mut depth = 0;
    let mut frames = Counted::new(stack, &mut depth);
    // Written out, and not by `Spot::new`: so the proof of the loop computes with it.
    let mut at = Spot {
        place: level.place(),
        scope: Scope {
            end: level.end(),
            base: 0,
            structs,
        },
        left: Left::Nothing,
    };
    while let Some(next) = turn_once(host, level, at, &mut frames, nodes)? {
        at = next;
    }
    Ok(at.place)
}
