// A fence around a host, which lets through a set of parts and denies the others.
ghost use Rattle.std.specs.Prelude.{◌≡◌};
ghost use Rattle.columns.specs.Fences.{no_parts, both_parts, allows, fenced, OneFence};
ghost use Rattle.columns.specs.Law.{fenced_lawful};

use hosts::Host;
use refusals::{Denial, Part};
use tokens::window::Window;

const FENCE_NUMBER: u8 = 3;

// A set of parts. Each has a name of its own here, since callers write the set out.
#[derive(Clone, Copy, Default)]
pub struct Parts {
    pub paths: bool,
    pub types: bool,
    pub patterns: bool,
    pub blocks: bool,
    pub keywords: bool,
    pub arguments: bool,
}

impl Parts {
    // The empty set.
    pub fn none() -> Parts
        ensures { result ≡ no_parts }
    {
        Parts::default()
    }

    // The parts that are in both sets. A fence over a fence is one fence over these.
    pub fn both(self, other: Parts) -> Parts
        ensures value { result ≡ both_parts self other }
        ensures fences { OneFence self other result }
    {
        Parts {
            paths: self.paths && other.paths,
            types: self.types && other.types,
            patterns: self.patterns && other.patterns,
            blocks: self.blocks && other.blocks,
            keywords: self.keywords && other.keywords,
            arguments: self.arguments && other.arguments,
        }
    }

    // Whether a part is in the set.
    pub fn allows(self, part: Part) -> bool
        ensures { result ≡ allows self part }
    {
        match part {
            Part::Path => self.paths,
            Part::TypeName => self.types,
            Part::Pattern => self.patterns,
            Part::Block => self.blocks,
            Part::Keyword => self.keywords,
            Part::Arguments => self.arguments,
        }
    }
}

// A host, and the parts that it may be asked for. The others are denied with the fence's one code, 5.
#[derive(Clone, Copy)]
pub struct Fence<H> {
    inner: H,
    allowed: Parts,
}

impl<H> Fence<H> {
    // The host with this set of parts.
    pub fn new(inner: H, allowed: Parts) -> Fence<H>
        ensures inner { result.inner ≡ inner }
        ensures allowed { result.allowed ≡ allowed }
    {
        Fence { inner, allowed }
    }
}

impl<H: Host> Host for Fence<H> {
    const NUMBER: u8 = FENCE_NUMBER;

    ghost host_number = { 3 };

    ghost reading = { λ f. fenced f.allowed (H.Host.reading f.inner) };

    ghost lawful = { λ f part l. fenced_lawful f.allowed (H.Host.reading f.inner) part l (H.Host.lawful f.inner part l) };

    fn own() -> u8 {
        FENCE_NUMBER
    }

    fn read(&self, part: Part, level: Window) -> Result<usize, Denial> {
        if self.allowed.allows(part) {
            self.inner.read(part, level)
        } else {
            Err(Denial {
                host: FENCE_NUMBER,
                code: 5,
            })
        }
    }
}
