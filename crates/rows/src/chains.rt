// Numbers from 0 on, linked in chains by a small key: from its newest number a chain goes down. What has the numbers lies
// beside, since a table's arcs are lent and would be copied; an invariant of the owner ties the two.
ghost use Rattle.std.specs.Prelude.{◌≡◌, ◌<◌, ◌≤◌, [], ◌∷◌, ◌++◌, length, slice_index};
ghost use Rattle.rows.specs.Chains.{keys, newest, Heads, Links};

use crate::link::Link;
use arrayvec::ArrayVec;

#[derive(Drop)]
pub struct Chains<const N: usize> {
    pub links: ArrayVec<Link, N>,
    // the newest number of each chain; a map would need the heap, which a rack does not have
    heads: [Option<u16>; 256],
    ghost heads_long: { length heads ≡ 256 },
    ghost headed: { Heads links.items heads },
    ghost linked: { Links links.items },
}

impl<const N: usize> Chains<N> {
    pub fn new() -> Chains<N>
        ensures { result.links.items ≡ [] }
    {
        Chains {
            links: ArrayVec::new(),
            heads: [None; 256],
        }
    }

    // The newest number with the key.
    pub fn head(&self, key: u8) -> Option<u16>
        ensures { result ≡ newest (keys self.now.links.items) (length self.now.links.items) key }
    {
        self.heads[key as usize]
    }

    // The number before k in its chain.
    pub fn before(&self, k: usize) -> Option<u16>
        requires { k < length self.now.links.items }
        ensures { result ≡ newest (keys self.now.links.items) k (slice_index (keys self.now.links.items) k) }
    {
        self.links[k].before
    }

    // The next number gets the key.
    pub fn push(&mut self, key: u8)
        requires { (length self.old.links.items < N) × (N ≤ 1024) }
        ensures { keys self.new.links.items ≡ keys self.old.links.items ++ key ∷ [] }
    {
        let chain = key as usize;
        let number = self.links.len() as u16;
        self.links.push(Link {
            key: key as u32,
            before: self.heads[chain],
        });
        self.heads[chain] = Some(number);
    }
}
