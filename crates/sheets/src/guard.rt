// The guard on the totals: let go armed, it puts both back.
ghost use Rattle.std.specs.Prelude.{◌≡◌, unwrap_or};

use super::records::Totals;

// What is put back stands here while the guard is armed.
pub struct Guard<'a> {
    pub totals: &'a mut Totals,
    old: Option<Totals>,
}

impl Drop for Guard<'_> {
    fn drop(self)
        ensures { self.exit.0.now ≡ unwrap_or self.entry.old self.entry.totals.now }
    {
        let Guard { totals, old } = self;
        if let Some(old) = old {
            *totals = old;
        }
    }
}

impl<'a> Guard<'a> {
    pub fn new(totals: &'a mut Totals) -> Guard<'a>
        ensures made { (result.old ≡ Some totals.old) × (result.totals.now ≡ totals.old) }
        ensures lent { result.totals.ghost_name ≡ totals.entry.ghost_name }
    {
        let old = Some(*totals);
        Guard { totals, old }
    }

    // The totals stay as they are now.
    pub fn disarm(&mut self)
        ensures kept { (self.exit.now.old ≡ None) × (self.exit.now.totals.now ≡ self.entry.now.totals.now) }
        ensures lent { self.exit.now.totals.ghost_name ≡ self.entry.now.totals.ghost_name }
    {
        self.old = None;
    }
}
