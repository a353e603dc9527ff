// Which blocks an entry may name: the region that contains a block, where it is in place.
ghost use Rattle.std.specs.Prelude.{◌≡◌, ◌-◌, ◌<◌, length, get_or, IfSome, unwrap_or};
ghost use Rattle.blocks.specs.Descriptor.{cost_of};
ghost use Rattle.entries.specs.InPlace.{region_of, owner_at};
ghost use Rattle.entries.specs.Through.{RisingRegions};

use blocks::descriptor;
use blocks::descriptor::Descriptor;
use blocks::numbers::Physical;

// The index of the region that contains block `p`: as many as end at or below it. A region ends where the next one starts; after where they start stands where the last one ends.
fn region_of(starts: &[u32], p: Physical) -> usize
    requires { RisingRegions starts.now (length starts.now - 1) 0 × (p.0 < get_or starts.now (length starts.now - 1) 0) }
    ensures value { result ≡ region_of starts.now p.0 }
    ensures upper_bound { result < length starts.now - 1 }
{
    starts[1..].partition_point(|end| *end <= p.0)
}

// The region that contains block `p`, where an entry of the descriptor `d` may name it, 0 where it is nil.
pub fn owner_at(starts: &[u32], d: Descriptor, p: Physical) -> Option<usize>
    requires { RisingRegions starts.now (length starts.now - 1) d.beta.0 }
    ensures value { unwrap_or result (length starts.now - 1) ≡ owner_at starts.now (cost_of d) d.beta.0 (length starts.now - 1) p.0 }
    ensures upper_bound { IfSome result (λ k. k < length starts.now - 1) }
{
    if p.is_nil() {
        return Some(0);
    }
    if d.beta <= p {
        return None;
    }
    let k = region_of(starts, p);
    let cost = descriptor::opening_cost(d.layout, d.volume) as usize;
    if (p.0 as usize) < (starts[k] as usize) + cost {
        return None;
    }
    Some(k)
}
