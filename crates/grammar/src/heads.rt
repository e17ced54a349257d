// What an operand begins with: the first tokens at a place decide which form is read there.
ghost use Rattle.std.specs.Prelude.{◌≡◌, ℕ, ◌+◌, ◌<◌};
ghost use Rattle.grammar.specs.Heads.{operand_only, range_end, reference_head, range_head, group_head, path_head, name_head, mark_head, head_at};
ghost use Rattle.trees.specs.declared.Kind.TheVariants.{Range};
ghost use Rattle.grammar.specs.declared.Head.TheVariants.{Prefix};

use super::{Head, OPERAND_ONLY, RANGE_END};
use hosts::Host;
use operators::range_ends;
use refusals::{Part, Refusal};
use tokens::window::Window;
use tokens::{Delimiter, Look, Word};
use trees::Kind;

// The marks before an operand that takes no operators. The op is the number that the node's line has.
fn unary(kind: Kind, op: u32, operand_at: usize) -> Head
    ensures { result ≡ Prefix kind op operand_at operand_only }
{
    Head::Prefix {
        kind,
        op,
        operand_at,
        least_rank: OPERAND_ONLY,
    }
}

// The limits of a range before its end.
fn range_to(op: u32, operand_at: usize) -> Head
    ensures { result ≡ Prefix Range op operand_at range_end }
{
    Head::Prefix {
        kind: Kind::Range,
        op,
        operand_at,
        least_rank: RANGE_END,
    }
}

// A level with a token at the window's place, and whether a path before `{` is a struct there.
#[derive(Clone, Copy)]
struct Front<'p, 't> {
    level: Window<'p, 't>,
    structs: bool,
    ghost here: { level.place < level.end },
}

impl<'p, 't> Front<'p, 't> {
    // `& operand`, `&mut operand`, `&raw const operand`, `&raw mut operand`
    fn reference(self) -> Head
        ensures { result ≡ reference_head self.entry.level.tokens.now self.entry.level.place self.entry.level.end }
    {
        let level = self.level;
        let place = level.place();
        if level.spells(place + 1, Word::Raw) && level.spells(place + 2, Word::Mut) {
            return unary(Kind::RawAddress, 1, place + 3);
        }
        if level.spells(place + 1, Word::Raw) && level.spells(place + 2, Word::Const) {
            return unary(Kind::RawAddress, 0, place + 3);
        }
        if level.spells(place + 1, Word::Mut) {
            return unary(Kind::Reference, 1, place + 2);
        }
        unary(Kind::Reference, 0, place + 1)
    }

    // `.. end`, `..= end`, or `..` alone, which stops where no end can begin
    fn range(self) -> Result<Head, Refusal>
        requires { self.level.place + 1 < self.level.end }
        ensures { result ≡ range_head self.entry.level.tokens.now self.entry.structs self.entry.level.place self.entry.level.end }
    {
        let place = self.level.place();
        if self.level.three(place, '.', '.', '=') {
            return Ok(range_to(1, place + 3));
        }
        if self.level.three(place, '.', '.', '.') {
            return Err(Refusal::ThreeDots(place));
        }
        if range_ends(self.level, place + 2, self.structs) {
            return Ok(Head::Leaf(Kind::Range, place + 2));
        }
        Ok(range_to(0, place + 2))
    }

    // `( .. )`, which is a tuple where it is empty
    fn group(self, delimiter: Delimiter, tokens: usize) -> Result<Head, Refusal>
        ensures { result ≡ group_head self.entry.level.place self.entry.level.end delimiter tokens }
    {
        let place = self.level.place();
        if delimiter == Delimiter::Paren && tokens <= self.level.end() - place {
            if tokens == 2 {
                return Ok(Head::Leaf(Kind::Tuple, place + 2));
            }
            if tokens > 2 {
                return Ok(Head::Group {
                    inside_at: place + 1,
                    closer_at: place + (tokens - 1),
                });
            }
        }
        Err(Refusal::ExpressionExpected(place))
    }

    // A path, which the host reads.
    fn path<H: Host>(self, host: &H) -> Result<Head, Refusal>
        ensures { result ≡ path_head (H.reading host.now) self.entry.level.page.now self.entry.level.tokens.now self.entry.level.place self.entry.level.end }
    {
        let place = self.level.place();
        let tokens = host
            .read(Part::Path, self.level)
            .map_err(|denial| Refusal::HostRefused(place, Part::Path, denial))?;
        Ok(Head::Leaf(Kind::Path, place + tokens))
    }

    // A literal, `_`, or a path that begins with a name.
    fn name<H: Host>(self, host: &H, word: Word) -> Result<Head, Refusal>
        ensures { result ≡ name_head (H.reading host.now) self.entry.level.page.now self.entry.level.tokens.now self.entry.level.place self.entry.level.end word }
    {
        let place = self.level.place();
        match word {
            Word::Plain
            | Word::Raw
            | Word::SelfValue
            | Word::SelfType
            | Word::Super
            | Word::Crate => self.path(host),
            Word::True | Word::False => Ok(Head::Leaf(Kind::Literal, place + 1)),
            Word::Underscore => Ok(Head::Leaf(Kind::Underscore, place + 1)),
            _ => Err(Refusal::ExpressionExpected(place)),
        }
    }

    // `* operand`, `! operand`, `- operand`, references, a path that begins with `<` or `::`, a range without a start
    fn mark<H: Host>(self, host: &H, mark: char) -> Result<Head, Refusal>
        ensures { result ≡ mark_head (H.reading host.now) self.entry.level.page.now self.entry.level.tokens.now self.entry.structs self.entry.level.place self.entry.level.end mark }
    {
        let place = self.level.place();
        match mark {
            '*' => Ok(unary(Kind::Unary, 1, place + 1)),
            '!' => Ok(unary(Kind::Unary, 2, place + 1)),
            '-' => Ok(unary(Kind::Unary, 3, place + 1)),
            '&' => Ok(self.reference()),
            '<' => self.path(host),
            _ if self.level.two(place, ':', ':') => self.path(host),
            _ if self.level.two(place, '.', '.') => self.range(),
            _ => Err(Refusal::ExpressionExpected(place)),
        }
    }
}

// What stands at the window's place, where an operand is to begin. Level and flag are two parameters, as callers have
// them.
pub fn see_head<H: Host>(host: &H, level: Window, structs: bool) -> Result<Head, Refusal>
    ensures { result ≡ head_at (H.reading host.now) level.entry.page.now level.entry.tokens.now structs level.entry.place level.entry.end }
{
    let place = level.place();
    let look = level
        .look(place)
        .ok_or(Refusal::ExpressionExpected(level.end()))?;
    let front = Front { level, structs };
    match look {
        Look::Name(word) => front.name(host, word),
        Look::Mark(mark, _) => front.mark(host, mark),
        Look::Integer | Look::Float | Look::Literal => Ok(Head::Leaf(Kind::Literal, place + 1)),
        Look::Open(delimiter, tokens) => front.group(delimiter, tokens),
        Look::Lifetime | Look::Close(_) => Err(Refusal::ExpressionExpected(place)),
    }
}
