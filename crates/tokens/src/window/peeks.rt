// What a window shows, and how it moves. A look past the level's end shows nothing.
ghost use Rattle.std.specs.Prelude.{◌≡◌, ◌+◌, ◌≤◌, min, [], length, take, drop, MatchOption, ◌==◌, if◌then◌else◌, nat_lt, slice_index_or};
ghost use Rattle.tokens.specs.Looks.{no_token, look_at, mark_in, mark_at, joined_at, two_at, three_at, field_of};
ghost use Rattle.tokens.specs.Words.{word_at};

use super::super::{Look, Token, Word};
use super::Window;

impl<'p, 't> Window<'p, 't> {
    // The whole of a page's tokens.
    pub fn new(page: &'p [u8], tokens: &'t [Token]) -> Window<'p, 't>
        ensures page { result.page.now ≡ page.now }
        ensures tokens { result.tokens.now ≡ tokens.now }
        ensures place { result.place ≡ 0 }
        ensures end { result.end ≡ length tokens.now }
    {
        Window {
            page,
            tokens,
            place: 0,
            end: tokens.len(),
        }
    }

    // The same tokens from another place to another end, which lies no further than this one's.
    pub fn level(self, place: usize, end: usize) -> Window<'p, 't>
        ensures page { result.page.now ≡ self.entry.page.now }
        ensures tokens { result.tokens.now ≡ self.entry.tokens.now }
        ensures place { result.place ≡ place }
        ensures end { result.end ≡ min end self.entry.end }
        ensures within { end ≤ self.entry.end → result.end ≡ end }
    {
        Window {
            page: self.page,
            tokens: self.tokens,
            place,
            end: end.min(self.end),
        }
    }

    // The same level from n places further on. Each field is written, here and above, since the checker takes no
    // `..self` of a struct with a ghost field.
    pub fn after(self, n: usize) -> Window<'p, 't>
        ensures page { result.page.now ≡ self.entry.page.now }
        ensures tokens { result.tokens.now ≡ self.entry.tokens.now }
        ensures place { result.place ≡ min (self.entry.place + n) usize.MAX }
        ensures end { result.end ≡ self.entry.end }
    {
        Window {
            page: self.page,
            tokens: self.tokens,
            place: self.place.saturating_add(n),
            end: self.end,
        }
    }

    pub fn place(self) -> usize
        ensures { result ≡ self.entry.place }
    {
        self.place
    }

    pub fn end(self) -> usize
        ensures { result ≡ self.entry.end }
    {
        self.end
    }

    // The look of the token at a place. The level's end bounds it, here and below, and not the slice's, as `get` would.
    pub fn look(self, i: usize) -> Option<Look>
        ensures { result ≡ look_at self.entry.tokens.now self.entry.end i }
    {
        if i < self.end {
            Some(self.tokens[i].look)
        } else {
            None
        }
    }

    // The value of the token at a place, as far as it lies on the page.
    pub fn value(self, i: usize) -> &'p [u8]
        ensures { result.now ≡ (if nat_lt i self.entry.end then (field_of self.entry.page.now (slice_index_or self.entry.tokens.now i no_token)).bytes else []) }
    {
        if i < self.end {
            let Token { start, len, .. } = self.tokens[i];
            bytes_from(self.page, start, len)
        } else {
            &[]
        }
    }

    // Whether the token at a place is a name that spells a word.
    pub fn spells(self, i: usize, word: Word) -> bool
        ensures { result ≡ word_at self.entry.tokens.now self.entry.end i word }
    {
        matches!(self.look(i), Some(Look::Name(w)) if w == word)
    }

    // The character of the mark at a place.
    pub fn mark(self, i: usize) -> Option<char>
        ensures value { result ≡ mark_in self.entry.tokens.now self.entry.end i }
        ensures tied { MatchOption result (mark_at self.entry.tokens.now self.entry.end i ≡ 0) (λ c. mark_at self.entry.tokens.now self.entry.end i ≡ c) }
    {
        match self.look(i) {
            Some(Look::Mark(c, _)) => Some(c),
            _ => None,
        }
    }

    // Whether a mark stands at a place and is joined to the next one.
    pub fn joined(self, i: usize) -> bool
        ensures { result ≡ joined_at self.entry.tokens.now self.entry.end i }
    {
        matches!(self.look(i), Some(Look::Mark(_, true)))
    }

    // Whether a character is the mark at a place. Where no mark stands, that is the character 0, as `mark_at` has it.
    pub fn is_mark(self, i: usize, c: char) -> bool
        ensures { result ≡ (mark_at self.entry.tokens.now self.entry.end i == c) }
    {
        self.mark(i).unwrap_or('\0') == c
    }

    // Whether two joined marks are spelled at a place.
    pub fn two(self, i: usize, a: char, b: char) -> bool
        ensures { result ≡ two_at self.entry.tokens.now self.entry.end i a b }
    {
        self.is_mark(i, a) && self.joined(i) && self.is_mark(i + 1, b)
    }

    // Whether three marks are spelled at a place, each joined to the next.
    pub fn three(self, i: usize, a: char, b: char, c: char) -> bool
        ensures { result ≡ three_at self.entry.tokens.now self.entry.end i a b c }
    {
        self.two(i, a, b) && self.joined(i + 1) && self.is_mark(i + 2, c)
    }
}

// The bytes of the page from a place on, at most this many.
fn bytes_from(page: &[u8], start: usize, len: usize) -> &[u8]
    ensures { result.now ≡ take len (drop start page.now) }
{
    let rest = &page[start.min(page.len())..];
    &rest[..len.min(rest.len())]
}
