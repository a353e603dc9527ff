// A card with a sound chain.
ghost use Rattle.std.specs.Prelude.{◌≡◌, ℕ, ◌+◌, ◌-◌, ◌<◌, length, get_or};
ghost use Rattle.blocks.specs.Descriptor.{physical, descriptor_at};
ghost use Rattle.chains.specs.Chain.{chain, descriptors, active_of};
ghost use Rattle.entries.specs.Through.{SoundChain};

use blocks::descriptor;
use blocks::descriptor::Descriptor;
use blocks::numbers::Physical;

// A card with a sound chain, and where its regions start: in chain order, and after these where the last one ends.
#[derive(Clone, Copy)]
pub struct Chain<'a> {
    pub card: &'a [u8],
    pub starts: &'a [u32],
    ghost sound: { SoundChain card.now starts.now },
}

impl<'a> Chain<'a> {
    // How many descriptors there are.
    pub fn count(self) -> usize
        ensures value { result ≡ length self.entry.starts.now - 1 }
        ensures some { 0 < result }
    {
        self.starts.len() - 1
    }

    // The block at which region `k` starts.
    pub fn start(self, k: usize) -> Physical
        requires { k < length self.starts.now }
        ensures { result ≡ physical (get_or self.entry.starts.now k 0) }
    {
        Physical(self.starts[k])
    }

    // Descriptor `k`.
    pub fn descriptor(self, k: usize) -> Descriptor
        requires { k < length self.starts.now - 1 }
        ensures { result ≡ descriptor_at self.entry.card.now (get_or self.entry.starts.now k 0) }
    {
        descriptor::read_descriptor(self.card, self.start(k))
    }

    // The active descriptor, the last one.
    pub fn active(self) -> Descriptor
        ensures value { result ≡ active_of (descriptors (chain self.entry.card.now)) }
        ensures read { result ≡ descriptor_at self.entry.card.now (get_or self.entry.starts.now (length self.entry.starts.now - 1 - 1) 0) }
    {
        self.descriptor(self.count() - 1)
    }
}
