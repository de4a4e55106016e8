ghost use Rattle.std.specs.Prelude.{◌≡◌, ◌+◌, ◌≤◌, ◌<◌, ◌^◌, ℕ, List, replicate, IfSome};
ghost use Rattle.vax_arch.specs.Walk.{Tables};
ghost use Rattle.vax_table.specs.Troubles.{intent_of};
ghost use Rattle.vax_paged.specs.Known.{AreKnownIn, IsKnownIn, place_known, place_or_absent};
ghost use Rattle.vax_paged.specs.Tagged.{no_page, tagged_page_for, with_tag, with_tags};

use crate::known::Known;
use std::marker::Model;
use vax_arch::Mode;

/// A page that was known when some tag was the present one: the numbers of a known page, each with that tag added. No tag
/// makes them 0.
#[derive(Clone, Copy)]
struct Tagged {
    read_page: u32,
    write_page: u32,
    base: u32,
}

/// The translation buffer of a mode: the pages that are known in it, each at its number modulo 2,048, the most pages that a guest
/// has. Those of another tag than the present one don't count.
#[derive(Drop)]
pub struct ModePages {
    pages: [Tagged; 2048],
    tag: u32,
    /// Whether one has the present tag.
    has_some: bool,
}

impl Model for ModePages {
    ghost use Rattle.std.specs.Prelude.{List, map};
    ghost use Rattle.vax_paged.specs.declared.known.Known.{Known};

    ghost Value = { List Known };

    ghost use Rattle.vax_paged.specs.Tagged.{MayHaveSome, at_present};

    ghost view = { λ m. map (at_present m.tag) m.pages };

    ghost invariant = { λ m. MayHaveSome m.tag m.has_some m.pages };
}

impl Tagged {
    /// No page, by any tag.
    fn no_page() -> Tagged
        ensures { result ≡ no_page }
    {
        Tagged {
            read_page: 0,
            write_page: 0,
            base: 0,
        }
    }

    fn page_for(&self, write: bool) -> u32
        ensures { result ≡ tagged_page_for (intent_of write) self.now }
    {
        if write {
            self.write_page
        } else {
            self.read_page
        }
    }
}

/// Clears pages of every tag.
#[cold]
#[inline(never)]
fn clear(pages: &mut [Tagged; 2048])
    ensures { pages.new ≡ replicate 2048 no_page }
{
    *pages = [Tagged::no_page(); 2048];
}

/// A page's number with a tag, where it is one.
fn with_tag(page: u32, tag: u32) -> u32
    requires { tag ≤ 4286578688 }
    ensures { result ≡ with_tag page tag }
{
    if page < 0x80_0000 { page + tag } else { 0 }
}

/// A known page with a tag.
fn with_tags(known: &Known, tag: u32) -> Tagged
    requires { tag ≤ 4286578688 }
    ensures { result ≡ with_tags known.now tag }
{
    Tagged {
        read_page: with_tag(known.read_page, tag),
        write_page: with_tag(known.write_page, tag),
        base: known.base,
    }
}

impl ModePages {
    /// None is known.
    pub fn nothing() -> ModePages
        ensures { (memory : List ℕ) (t : Tables) (m : Mode) → AreKnownIn memory t m result }
    {
        ModePages {
            pages: [Tagged::no_page(); 2048],
            tag: 0x80_0000,
            has_some: false,
        }
    }

    /// None is known any more. After the last tag comes the first, so all that has one is cleared then.
    pub fn forget(&mut self)
        ensures { (memory : List ℕ) (t : Tables) (m : Mode) → AreKnownIn memory t m self.new }
    {
        if !self.has_some {
            return;
        }
        self.has_some = false;
        let has_next = self.tag <= 0xFF00_0000;
        if has_next {
            self.tag += 0x80_0000;
        } else {
            clear(&mut self.pages);
            self.tag = 0x80_0000;
        }
    }

    /// One more page, in place of another.
    pub fn put(&mut self, at: usize, known: Known)
        requires { at < 2048 }
        ensures { (memory : List ℕ) (t : Tables) (m : Mode) → AreKnownIn memory t m self.old → IsKnownIn memory t m known → AreKnownIn memory t m self.new }
    {
        self.pages[at] = with_tags(&known, self.tag);
        self.has_some = true;
    }

    /// The place of an address, if its page is known and open.
    #[inline(always)]
    pub fn place(&self, va: u32, write: bool) -> Option<usize>
        ensures is { place_or_absent result ≡ place_known self.now (intent_of write) va }
        ensures small { IfSome result (λ place. place < 2 ^ 32 + 512) }
    {
        let page = va / 512;
        let there = &self.pages[page as usize % 2048];
        if there.page_for(write) == page + self.tag {
            Some(there.base as usize + va as usize % 512)
        } else {
            None
        }
    }
}
