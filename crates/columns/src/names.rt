// The host for columns: a path is one of the names on a page of columns, a type is `cents` or `days`.
ghost use Rattle.std.specs.Prelude.{◌≡◌, false, if◌then◌else◌, nat_lt, slice_index_or};
ghost use Rattle.tokens.specs.Looks.{no_token, level_of};
ghost use Rattle.columns.specs.Columns.{any_name, columns_of};
ghost use Rattle.columns.specs.Law.{name_lawful};
ghost use Rattle.columns.specs.Names.{among, names_for, code_for, begins_with, name_reading};

use super::walk::has_column;
use hosts::Host;
use refusals::{Denial, Part};
use tokens::Look;
use tokens::window::Window;

// Its columns are the names on a page, up to the first field there that is no name.
#[derive(Clone, Copy)]
pub struct NameHost<'a> {
    columns: &'a [u8],
}

impl<'a> NameHost<'a> {
    // The host for the columns on this page.
    pub fn new(columns: &'a [u8]) -> NameHost<'a>
        ensures { result.columns.now ≡ columns.now }
    {
        NameHost { columns }
    }
}

impl<'a> Host for NameHost<'a> {
    const NUMBER: u8 = 1;

    ghost host_number = { 1 };

    ghost reading = { λ h. name_reading (columns_of h.columns.now) };

    ghost lawful = { λ h part l. name_lawful (columns_of h.columns.now) part l };

    fn own() -> u8
        ensures { result ≡ 1 }
    {
        Self::NUMBER
    }

    fn read(&self, part: Part, level: Window) -> Result<usize, Denial>
        ensures { result ≡ name_reading (columns_of self.now.columns.now) part (level_of level.entry.page.now level.entry.tokens.now level.entry.place level.entry.end) }
    {
        if begins_with(self.columns, part, level) {
            Ok(1)
        } else {
            Err(Denial {
                host: Self::NUMBER,
                code: code_for(part),
            })
        }
    }
}

// The code with which a part is denied: 1 for a path, 2 for all else.
fn code_for(part: Part) -> u8
    ensures { result ≡ code_for part }
{
    match part {
        Part::Path => 1,
        _ => 2,
    }
}

// Whether a name may be this part. The part is a value of the caller's, and so chosen by a match.
fn may_be(columns: &[u8], part: Part, name: &[u8]) -> bool
    ensures { result ≡ among name.now (names_for (columns_of columns.now) part) }
{
    match part {
        Part::Path => has_column(columns, name),
        Part::TypeName => matches!(name, b"cents" | b"days"),
        _ => false,
    }
}

// Whether a name stands at a place, whatever it spells.
fn name_at(w: Window, at: usize) -> bool
    ensures { result ≡ (if nat_lt at w.entry.end then any_name (slice_index_or w.entry.tokens.now at no_token).look else false) }
{
    matches!(w.look(at), Some(Look::Name(_)))
}

// Whether a level begins with a name that may be this part.
fn begins_with(columns: &[u8], part: Part, level: Window) -> bool
    ensures { result ≡ begins_with (names_for (columns_of columns.now) part) (level_of level.entry.page.now level.entry.tokens.now level.entry.place level.entry.end) }
{
    let at = level.place();
    name_at(level, at) && may_be(columns, part, level.value(at))
}
