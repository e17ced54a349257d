// The walk over a page of columns, name after name.
ghost use Rattle.std.specs.Prelude.{◌≡◌, ◌+◌, ◌<◌, ◌≤◌, true, length, IfSome};
ghost use Rattle.std.specs.Iterator.{YieldsFirstRef, item_count};
ghost use Rattle.pages.specs.Fields.{field_at};
ghost use Rattle.columns.specs.Columns.{columns_of, names_left};
ghost use Rattle.columns.specs.Names.{among};
ghost use Rattle.columns.specs.Walk.{holds_name, name_end};

use pages::is_name;

// Whether a field with this tag and length is a name, over the bytes behind its head. No more is read of a field than
// that: which word a name spells, as pages ask, is not asked for each column, and 1 is the tag of names.
fn holds_name(tag: u8, len: usize, rest: &[u8]) -> bool
    ensures value { result ≡ holds_name tag len rest.now }
    ensures within { result ≡ true → (1 ≤ len) × (len ≤ length rest.now) }
{
    tag == 1 && len >= 1 && len <= 64 && len <= rest.len() && is_name(&rest[..len])
}

// Where the name in the field at a byte of the page ends, if the field is a name.
fn name_end(page: &[u8], at: usize) -> Option<usize>
    requires { at ≤ length page.now }
    ensures value { result ≡ name_end (field_at page.now at) }
    ensures within { IfSome result (λ end. (at + 3 < end) × (end ≤ length page.now)) }
{
    let [tag, high, low, rest @ ..] = &page[at..] else {
        return None;
    };
    let len = usize::from(u16::from_be_bytes([*high, *low]));
    if holds_name(*tag, len, rest) {
        Some(at + 3 + len)
    } else {
        None
    }
}

// The names on a page of columns, from a byte of it on. It gives names alone, and reads no more of a field than that.
#[derive(Drop)]
struct Columns<'p> {
    page: &'p [u8],
    at: usize,
    ghost inside: { at ≤ length page.now },
}

impl<'p> Columns<'p> {
    fn new(page: &'p [u8]) -> Columns<'p>
        ensures { names_left result.page.now result.at ≡ columns_of page.now }
    {
        Columns { page, at: 0 }
    }
}

impl<'p> Iterator for Columns<'p> {
    type Item = &'p [u8];

    ghost next_gives = { YieldsFirstRef (λ c. names_left c.page.now c.at) };

    ghost remaining = { item_count (λ c. names_left c.page.now c.at) };

    fn next(&mut self) -> Option<&'p [u8]> {
        let end = name_end(self.page, self.at)?;
        let name = &self.page[self.at + 3..end];
        self.at = end;
        Some(name)
    }
}

// Whether a name is on a page of columns.
pub fn has_column(page: &[u8], name: &[u8]) -> bool
    ensures { result ≡ among name.now (columns_of page.now) }
{
    Columns::new(page).any(|column| name == column)
}
