// The interface by which the reading of an expression asks for paths, types, patterns, blocks, keyword expressions and
// arguments, and the host for statements.
#![tactic(auto)]

ghost use Rattle.std.specs.Prelude.{◌≡◌, ℕ, List, Result};
ghost use Rattle.refusals.specs.declared.Part.{Part};
ghost use Rattle.refusals.specs.declared.Denial.{Denial};
ghost use Rattle.tokens.specs.Looks.{Field, level_of};
ghost use Rattle.hosts.specs.Lawful.{Lawful};

pub mod statement;

use refusals::{Denial, Part};
use tokens::window::Window;

// A host by its meaning: a reading, which gives each part at the front of a level its length or denies it. The level
// is known to it by the values of its fields alone, and asking alters nothing.
pub trait Host {
    const NUMBER: u8;

    ghost host_number: { ℕ };

    ghost reading: { Self → Part → List Field → Result ℕ Denial };

    // The number of this host. Each `impl` says it anew, since no law of the trait can name a constant.
    fn own() -> u8
        ensures { result ≡ host_number };

    // How many tokens at the front of the level are the part that is asked for.
    fn read(&self, part: Part, level: Window) -> Result<usize, Denial>
        ensures { result ≡ reading self.now part (level_of level.entry.page.now level.entry.tokens.now level.entry.place level.entry.end) };

    ghost lawful: { (h : Self) (part : Part) (l : List Field) → Lawful l (reading h part l) };
}
