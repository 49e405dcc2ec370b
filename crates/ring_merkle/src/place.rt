// SPDX-License-Identifier: ISC
//! Places in a tree, and the steps from one to the next (RFC 9162, sections 2.1.3.2 and 2.1.4.2).

ghost use Rattle.std.specs.Prelude.{◌≡◌, ◌/◌, ◌*◌, ◌≤◌, ◌||◌, Some, cond, length};
ghost use Rattle.ring.specs.Prelude.{raised};
ghost use Rattle.ring_merkle.specs.Cost.{hashed_count, is_alone, node_blocks, path_len};
ghost use Rattle.ring_merkle.specs.Walk.{is_even, is_odd_or_zero, is_right, next_last, next_node};
ghost use Rattle.ring_merkle.specs.Walk.{shifted_last, shifted_node, step_of, walk};

use crate::hash::{HASH_LEN, node_hash_counted};
use ring::cost::Meter;

// A tree by the number of its leaves and its tree hash.
#[derive(Clone, Copy)]
pub(crate) struct TreeHead<'a> {
    pub(crate) size: u64,
    pub(crate) root: &'a [u8; HASH_LEN],
}

// A node by its index, and the index of the last node of its level: fn and sn.
#[derive(Clone, Copy)]
pub(crate) struct Place {
    pub(crate) node: u64,
    pub(crate) last: u64,
}

impl Place {
    // Whether the next value of a path stands on the left.
    pub(crate) fn is_right(self) -> bool
        ensures { result ≡ is_right self.node self.last }
    {
        self.node % 2 == 1 || self.node == self.last
    }

    // Both shifted right one time.
    fn up(self) -> Self
        ensures node { result.node ≡ self.node / 2 }
        ensures last { result.last ≡ self.last / 2 }
    {
        Place {
            node: self.node / 2,
            last: self.last / 2,
        }
    }

    // Whether the node's lowest bit is set or it is 0.
    fn is_odd_or_zero(self) -> bool
        ensures { result ≡ is_odd_or_zero self.node }
    {
        self.node % 2 == 1 || self.node == 0
    }

    // Both shifted until the node's lowest bit is set or it is 0.
    fn odd_or_zero(self) -> Self
        ensures node { result.node ≡ shifted_node is_odd_or_zero 64 self.node }
        ensures last { result.last ≡ shifted_last is_odd_or_zero 64 self.node self.last }
    {
        let mut place = self;
        while !place.is_odd_or_zero() {
            place = place.up();
        }
        place
    }

    // Both shifted until the node's lowest bit is not set.
    pub(crate) fn even(self) -> Self
        ensures node { result.node ≡ shifted_node is_even 64 self.node }
        ensures last { result.last ≡ shifted_last is_even 64 self.node self.last }
    {
        let mut place = self;
        while place.node % 2 == 1 {
            place = place.up();
        }
        place
    }

    // The place after a step.
    pub(crate) fn next(self) -> Self
        ensures node { result.node ≡ next_node self.node self.last }
        ensures last { result.last ≡ next_last self.node self.last }
    {
        if self.is_right() {
            self.odd_or_zero().up()
        } else {
            self.up()
        }
    }

    // Whether the node is the last one of its level, and has no sibling there.
    fn is_alone(self) -> bool
        ensures { result ≡ is_alone self.node self.last }
    {
        self.node % 2 == 0 && self.node == self.last
    }

    // How many values a path from here to the root has: one for each level, but none for a level
    // whose last node it is and where it has no sibling.
    pub(crate) fn path_len(self) -> usize
        requires { self.node ≤ self.last }
        ensures count { result ≡ path_len self.node self.last }
        ensures most { result ≤ 64 }
    {
        let mut place = self;
        let mut len = 0;
        while place.last != 0 {
            len += usize::from(!place.is_alone());
            place = place.up();
        }
        len
    }

    // The hash one step on from `reached`: to the root of the whole tree, or to that of its
    // beginning, which has nothing of a value on the right.
    fn step(
        self,
        whole: bool,
        value: &[u8; HASH_LEN],
        reached: &[u8; HASH_LEN],
        meter: &mut Meter,
    ) -> [u8; HASH_LEN]
        ensures hash { result ≡ step_of whole (is_right self.node self.last) value.now reached.now }
        ensures cost { meter.new ≡ raised meter.old
            (node_blocks * cond (whole || is_right self.node self.last) 1 0) 0 }
    {
        if self.is_right() {
            node_hash_counted(value, reached, meter)
        } else if whole {
            node_hash_counted(reached, value, meter)
        } else {
            *reached
        }
    }

    // The hash to which the steps of `path` lead from `hash`.
    pub(crate) fn climb(
        self,
        whole: bool,
        hash: &[u8; HASH_LEN],
        path: &[[u8; HASH_LEN]],
        meter: &mut Meter,
    ) -> [u8; HASH_LEN]
        requires within { self.node ≤ self.last }
        requires len { length path.now ≡ path_len self.node self.last }
        ensures reached { walk (step_of whole) self.node self.last hash.now path.now ≡ Some result }
        ensures cost { meter.new ≡ raised meter.old
            (node_blocks * hashed_count whole self.node self.last path.now) 0 }
    {
        let mut place = self;
        let mut reached = *hash;
        for value in path {
            reached = place.step(whole, value, &reached, meter);
            place = place.next();
        }
        reached
    }
}
