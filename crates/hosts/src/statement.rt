// The host for statements, which takes the longest run of each part.
ghost use Rattle.std.specs.Prelude.{◌≡◌, ◌+◌, ◌-◌, ◌<◌, ◌≤◌, true, IfSome, ◌==◌};
ghost use Rattle.tokens.specs.Looks.{level_of};
ghost use Rattle.hosts.specs.Runs.{LongestRun};
ghost use Rattle.hosts.specs.Statements.{looks_from, word_role, look_role, first_role, first_mark, has_role, colons, further, segments_length, path_length, references, type_length, open_length, group_length, keyword_length, pattern_length, angled_length, arguments_length, length_of, found, statement_reading};
ghost use Rattle.hosts.specs.Law.{statement_lawful};

use super::Host;
use refusals::{Denial, Part};
use tokens::window::Window;
use tokens::{Delimiter, Look, Word};

// Its types are paths behind `&` marks, its patterns single tokens and paths with a group, its blocks groups in braces.
// It denies whatever it denies with its one code, 3.
#[derive(Clone, Copy)]
pub struct StatementHost;

impl Host for StatementHost {
    const NUMBER: u8 = 2;

    ghost host_number = { 2 };

    ghost reading = { λ h. statement_reading };

    ghost lawful = { λ h part l. statement_lawful part l };

    fn own() -> u8 {
        Self::NUMBER
    }

    fn read(&self, part: Part, level: Window) -> Result<usize, Denial>
        ensures value { result ≡ statement_reading part (level_of level.entry.page.now level.entry.tokens.now level.entry.place level.entry.end) }
        ensures longest { LongestRun part (level_of level.entry.page.now level.entry.tokens.now level.entry.place level.entry.end) result }
    {
        run(level, part).ok_or(Denial {
            host: Self::NUMBER,
            code: 3,
        })
    }
}

// What a token may be in a run.
#[derive(Clone, Copy, PartialEq, Eq)]
enum Role {
    Segment,
    BlockWord,
    // A pattern by itself.
    Alone,
    Mutable,
}

// What a name may be, if anything.
fn word_role(word: Word) -> Option<Role>
    ensures { result ≡ word_role word }
{
    match word {
        Word::Plain | Word::Raw | Word::SelfValue | Word::SelfType | Word::Super | Word::Crate =>
            Some(Role::Segment),
        Word::Loop | Word::Unsafe | Word::Const | Word::Async | Word::Try => Some(Role::BlockWord),
        Word::Underscore | Word::True | Word::False => Some(Role::Alone),
        Word::Mut => Some(Role::Mutable),
        _ => None,
    }
}

// What a token of this look may be, if anything.
fn look_role(look: Look) -> Option<Role>
    ensures { result ≡ look_role look }
{
    match look {
        Look::Name(word) => word_role(word),
        Look::Integer | Look::Float | Look::Literal => Some(Role::Alone),
        _ => None,
    }
}

// Each function of a window below asks what stands at its front, that is, from its place on. One that answers yes or
// no says of a yes that it stands before the end; one that answers a length, that it keeps within the window. No type
// holds a length and its bound, since it would be taken apart wherever a length is added to.

// Whether the first token has a role.
fn has_role(w: Window, role: Role) -> bool
    ensures value { result ≡ has_role role (first_role (looks_from w.entry.tokens.now w.entry.place w.entry.end)) }
    ensures room { result ≡ true → w.entry.place < w.entry.end }
{
    w.look(w.place()).and_then(look_role) == Some(role)
}

// Whether a certain mark stands first.
fn mark(w: Window, c: char) -> bool
    ensures value { result ≡ (first_mark (looks_from w.entry.tokens.now w.entry.place w.entry.end) == c) }
    ensures room { 0 < c → result ≡ true → w.entry.place < w.entry.end }
{
    w.is_mark(w.place(), c)
}

// Whether `::` stands first.
fn colons(w: Window) -> bool
    ensures value { result ≡ colons (looks_from w.entry.tokens.now w.entry.place w.entry.end) }
    ensures room { result ≡ true → w.entry.place + 1 < w.entry.end }
{
    w.two(w.place(), ':', ':')
}

// The length of the pairs of `::` and a segment. The loop counts, since no range says how many pairs there are, and an
// iterator over them, with its state and its contract, would be longer.
fn further(w: Window) -> usize
    ensures value { result ≡ further (looks_from w.entry.tokens.now w.entry.place w.entry.end) }
    ensures within { result ≤ w.entry.end - w.entry.place }
{
    let mut n = 0;
    while colons(w.after(n)) && has_role(w.after(n + 2), Role::Segment) {
        n += 3;
    }
    n
}

// The length of the segments, joined by `::`.
fn segments(w: Window) -> Option<usize>
    ensures value { result ≡ found (segments_length (looks_from w.entry.tokens.now w.entry.place w.entry.end)) }
    ensures within { IfSome result (λ n. n ≤ w.entry.end - w.entry.place) }
{
    if has_role(w, Role::Segment) {
        Some(1 + further(w.after(1)))
    } else {
        None
    }
}

// The length of the path.
fn path(w: Window) -> Option<usize>
    ensures value { result ≡ found (path_length (looks_from w.entry.tokens.now w.entry.place w.entry.end)) }
    ensures within { IfSome result (λ n. n ≤ w.entry.end - w.entry.place) }
{
    if colons(w) {
        Some(2 + segments(w.after(2))?)
    } else {
        segments(w)
    }
}

// The length of the `&` marks, each with its `mut`. The loop counts, as that of the pairs does.
fn references(w: Window) -> usize
    ensures value { result ≡ references (looks_from w.entry.tokens.now w.entry.place w.entry.end) }
    ensures within { result ≤ w.entry.end - w.entry.place }
{
    let mut n = 0;
    while mark(w.after(n), '&') {
        n += if has_role(w.after(n + 1), Role::Mutable) {
            2
        } else {
            1
        };
    }
    n
}

// The length of the type.
fn type_name(w: Window) -> Option<usize>
    ensures value { result ≡ found (type_length (looks_from w.entry.tokens.now w.entry.place w.entry.end)) }
    ensures within { IfSome result (λ n. n ≤ w.entry.end - w.entry.place) }
{
    let n = references(w);
    Some(n + path(w.after(n))?)
}

// How many tokens a group has that begins with this look, if one does.
fn open_length(delimiter: Delimiter, look: Look) -> Option<usize>
    ensures { result ≡ found (open_length delimiter look) }
{
    match look {
        Look::Open(other, len) if other == delimiter && len > 0 => Some(len),
        _ => None,
    }
}

// The length of the group, if it lies within the level.
fn group(w: Window, delimiter: Delimiter) -> Option<usize>
    ensures value { result ≡ found (group_length delimiter (looks_from w.entry.tokens.now w.entry.place w.entry.end)) }
    ensures within { IfSome result (λ n. n ≤ w.entry.end - w.entry.place) }
{
    let len = open_length(delimiter, w.look(w.place())?)?;
    (len <= w.end() - w.place()).then_some(len)
}

// The length of the block that begins with a word.
fn keyword(w: Window) -> Option<usize>
    ensures value { result ≡ found (keyword_length (looks_from w.entry.tokens.now w.entry.place w.entry.end)) }
    ensures within { IfSome result (λ n. n ≤ w.entry.end - w.entry.place) }
{
    if has_role(w, Role::BlockWord) {
        Some(1 + group(w.after(1), Delimiter::Brace)?)
    } else {
        None
    }
}

// The length of the pattern.
fn pattern(w: Window) -> Option<usize>
    ensures value { result ≡ found (pattern_length (looks_from w.entry.tokens.now w.entry.place w.entry.end)) }
    ensures within { IfSome result (λ n. n ≤ w.entry.end - w.entry.place) }
{
    if has_role(w, Role::Alone) {
        return Some(1);
    }
    let n = path(w)?;
    Some(n + group(w.after(n), Delimiter::Paren).unwrap_or(0))
}

// The length of `<`, a type and `>`.
fn angled(w: Window) -> Option<usize>
    ensures value { result ≡ found (angled_length (looks_from w.entry.tokens.now w.entry.place w.entry.end)) }
    ensures within { IfSome result (λ n. n ≤ w.entry.end - w.entry.place) }
{
    if !mark(w, '<') {
        return None;
    }
    let n = type_name(w.after(1))?;
    if mark(w.after(1 + n), '>') {
        Some(2 + n)
    } else {
        None
    }
}

// The length of the arguments: `::`, and then a type between `<` and `>`.
fn arguments(w: Window) -> Option<usize>
    ensures value { result ≡ found (arguments_length (looks_from w.entry.tokens.now w.entry.place w.entry.end)) }
    ensures within { IfSome result (λ n. n ≤ w.entry.end - w.entry.place) }
{
    if colons(w) {
        Some(2 + angled(w.after(2))?)
    } else {
        None
    }
}

// The length of the longest run of a part, added to no other. The part is a value of the caller's, and so chosen by a
// match.
fn run(w: Window, part: Part) -> Option<usize>
    ensures { result ≡ found (length_of part (looks_from w.entry.tokens.now w.entry.place w.entry.end)) }
{
    match part {
        Part::Path => path(w),
        Part::TypeName => type_name(w),
        Part::Pattern => pattern(w),
        Part::Block => group(w, Delimiter::Brace),
        Part::Keyword => keyword(w),
        Part::Arguments => arguments(w),
    }
}
