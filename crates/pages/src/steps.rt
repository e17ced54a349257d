// One field more: its token is taken in, and groups are matched.
ghost use Rattle.std.specs.Prelude.{◌≡◌, ◌<◌, ◌≤◌, length, None};
ghost use Rattle.std.specs.Option.{ForSome};
ghost use Rattle.pages.specs.Steps.{places_back, around, added, closing, opening, step};

use lists::append;
use refusals::Refusal;
use tokens::{Delimiter, Look, Token};

// No page has more tokens.
const MOST_TOKENS: usize = 4096;

// What was taken in from a page: the tokens so far, and the place of the innermost opener that is still open. The space
// stands here itself, and not in a counted list: a caller learns what is written through a reference only where the
// struct has that reference as a field of its own.
#[derive(Drop)]
pub struct Taken<'s> {
    space: &'s mut [Token],
    count: usize,
    inner: Option<usize>,
    ghost held: { count ≤ length space.now },
    ghost opened: { ForSome inner (λ p. p < count) },
}

// How many places before this one the innermost opener stands, 0 where there is none: the number is kept in an opener's
// look. An opener stands before the place, so the difference is never cut off at 0, here and below.
fn places_back(place: usize, inner: Option<usize>) -> usize
    ensures { result ≡ places_back place inner }
{
    inner.map_or(0, |opener| place.saturating_sub(opener))
}

// The opener around the one at this place, by how many places back it stands.
fn opener_around(place: usize, back: usize) -> Option<usize>
    ensures { result ≡ around place back }
{
    (back != 0).then_some(place.saturating_sub(back))
}

impl<'s> Taken<'s> {
    ghost use Rattle.pages.specs.Taken.{items, held, most, Stepped};
    ghost use Rattle.pages.specs.Pages.{answer, still_open};

    // Nothing, over this space.
    pub fn new(space: &'s mut [Token]) -> Taken<'s>
        ensures held { result.space.now ≡ space.old }
        ensures count { result.count ≡ 0 }
        ensures inner { result.inner ≡ None }
        ensures lender { result.space.ghost_name ≡ space.entry.ghost_name }
    {
        Taken {
            space,
            count: 0,
            inner: None,
        }
    }

    // Takes a token in as it is, if there is room. The byte at which its field begins is for a refusal alone, here and
    // below, so that the two are no struct.
    fn add(&mut self, token: Token, at: usize) -> Result<(), Refusal>
        ensures { Stepped (added (most self.old) at (items self.old) token self.old.inner) self.old self.new result }
    {
        let full = Refusal::TooManyTokens(at);
        if self.count >= MOST_TOKENS {
            return Err(full);
        }
        let _place = append(self.space, &mut self.count, token).map_err(|_| full)?;
        Ok(())
    }

    // Takes an opener in: until its closer comes it holds how many places back the opener around it stands.
    fn open(&mut self, token: Token, delimiter: Delimiter, at: usize) -> Result<(), Refusal>
        ensures { Stepped (opening (most self.old) at (held self.old) token delimiter) self.old self.new result }
    {
        let place = self.count;
        let look = Look::Open(delimiter, places_back(place, self.inner));
        self.add(Token { look, ..token }, at)?;
        self.inner = Some(place);
        Ok(())
    }

    // Takes a closer in: the innermost opener learns the size of its group, and the one around it is the innermost now.
    fn close(&mut self, token: Token, delimiter: Delimiter, at: usize) -> Result<(), Refusal>
        ensures { Stepped (closing (most self.old) at (items self.old) token delimiter self.old.inner) self.old self.new result }
    {
        let place = self.inner.ok_or(Refusal::Unbalanced(at))?;
        let opener = self.space[place];
        let Look::Open(opened, back) = opener.look else {
            return Err(Refusal::Unbalanced(at));
        };
        if opened != delimiter {
            return Err(Refusal::Unbalanced(at));
        }
        let closer = self.count;
        self.add(token, at)?;
        let look = Look::Open(opened, closer - place + 1);
        self.space[place] = Token { look, ..opener };
        self.inner = opener_around(place, back);
        Ok(())
    }

    // Takes in the token of the field at this byte of the page.
    pub fn take_in(&mut self, token: Token, at: usize) -> Result<(), Refusal>
        ensures { Stepped (step (most self.old) at (held self.old) token) self.old self.new result }
    {
        match token.look {
            Look::Open(delimiter, _) => self.open(token, delimiter, at),
            Look::Close(delimiter) => self.close(token, delimiter, at),
            _ => self.add(token, at),
        }
    }

    // After the last field: how many tokens there are, unless an opener is still open. Its value stands behind a head of
    // three bytes, so the difference is never cut off at 0.
    pub fn finish(&self) -> Result<usize, Refusal>
        ensures { result ≡ answer (still_open (items self.now) self.now.inner) self.now.count }
    {
        match self.inner {
            None => Ok(self.count),
            Some(place) => {
                let start = self.space[place].start;
                Err(Refusal::Unbalanced(start.saturating_sub(3)))
            }
        }
    }
}
