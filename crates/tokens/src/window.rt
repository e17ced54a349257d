// A window over the tokens of a level: it borrows them, and knows its place and its end. It is no slice of the level
// alone, since places are those of the whole page, and contracts take its parts one by one, since definitions ask of
// other places and ends too.
ghost use Rattle.std.specs.Prelude.{◌≤◌, length};

use super::Token;

mod peeks;

#[derive(Clone, Copy)]
pub struct Window<'p, 't> {
    page: &'p [u8],
    tokens: &'t [Token],
    place: usize,
    end: usize,
    ghost inside: { end ≤ length tokens.now },
}
