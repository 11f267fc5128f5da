// What some of the stays, in order of their beginnings, use from some beginning on. No contract rests on it.
use crate::energy_pass::Stay;
use fzn_domain::Memory;
use std::alloc::Global;

/// What stays side by side use, and the most that there may have been used until they end: what is given until one of them begins, and
/// what it and those behind it use.
#[derive(Debug, Clone, Copy)]
struct Node {
    energy: i64,
    envelope: i64,
}

impl Node {
    /// Of no stay.
    fn empty() -> Node {
        Node {
            energy: 0,
            envelope: i64::MIN,
        }
    }

    fn joined(&self, behind: &Node) -> Node {
        Node {
            energy: self.energy.saturating_add(behind.energy),
            envelope: behind
                .envelope
                .max(self.envelope.saturating_add(behind.energy)),
        }
    }
}

/// A tree over the stays: the nodes below node k are 2k and 2k + 1, and node 1 is the root.
#[derive(Debug, Drop)]
pub(crate) struct EnergyTree {
    nodes: Vec<Node>,
    /// The node of the first stay.
    first: usize,
}

impl EnergyTree {
    /// None of so many stays is there.
    pub(crate) fn new(alloc: Global, count: usize) -> Result<EnergyTree, Memory> {
        let mut first: usize = 1;
        for _ in 0..64 {
            if count <= first {
                break;
            }
            first = first.saturating_mul(2);
        }
        let nodes = Vec::from_elem(alloc, Node::empty(), first.saturating_mul(2))?;
        Ok(EnergyTree { nodes, first })
    }

    fn node(&self, k: usize) -> Node {
        self.nodes.get(k).copied().unwrap_or(Node::empty())
    }

    fn set(&mut self, k: usize, node: Node) {
        if k < self.nodes.len() {
            self.nodes[k] = node;
        }
    }

    /// The stay at this place is there too.
    pub(crate) fn put(&mut self, place: usize, stay: &Stay, capacity: i64) {
        let given = capacity.saturating_mul(stay.from);
        let mut k = self.first.saturating_add(place);
        self.set(
            k,
            Node {
                energy: stay.energy,
                envelope: given.saturating_add(stay.energy),
            },
        );
        for _ in 0..64 {
            k /= 2;
            if k == 0 {
                return;
            }
            let left = k.saturating_mul(2);
            let node = self.node(left).joined(&self.node(left.saturating_add(1)));
            self.set(k, node);
        }
    }

    /// The most that there may have been used until all that are there end.
    pub(crate) fn envelope(&self) -> i64 {
        self.node(1).envelope
    }
}
