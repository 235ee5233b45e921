//! The stored state of one superblock.

ghost use Rattle.std.specs.Prelude.{◌≡◌, ℕ, ◌^◌, ◌<◌, ◌≤◌, Some, None, length, slice_index_or, slice_set, IfOk, Bool, true};
ghost use Rattle.model_core.specs.declared.limits.TheConstants.{WIDE_ORDER};
ghost use Rattle.model_core.specs.Numbered.{number_at, IsOpen};
ghost use Rattle.buddy_core.specs.Stored.{bare_superblock};
ghost use Rattle.buddy_core.specs.Tree.{Shows, IsLess};

use crate::tree::Tree;
use std::alloc::{AllocError, Global};
use std::marker::Model;

/// The tree of orders of one superblock, and for each of its frames the order of the taken block that begins there, or `None`.
#[derive(Debug, Drop)]
pub struct Superblock {
    tree: Tree,
    orders: Vec<Option<u8>>,
}

impl Model for Superblock {
    ghost use Rattle.std.specs.Prelude.{◌≡◌, ◌^◌, length};
    ghost use Rattle.buddy_core.specs.Stored.{StoredSuperblock};

    ghost Value = { StoredSuperblock };

    ghost view = { λ a. record { tree = a.tree; orders = a.orders.items } };

    ghost invariant = { λ a. length a.orders.items ≡ 2 ^ a.tree.order };
}

impl Superblock {
    /// Makes a superblock of `2^order` frames that is in no slot.
    pub fn new(alloc: Global, order: u8) -> Result<Superblock, AllocError>
        requires { order ≤ WIDE_ORDER }
        ensures { IfOk result (λ s. s ≡ bare_superblock order) }
    {
        let tree = Tree::new(alloc, order)?;
        let orders = vec![in alloc; None; 1 << order]?;
        Ok(Superblock { tree, orders })
    }

    /// Returns the tree of orders.
    pub fn tree(&self) -> &Tree
        ensures { result.now ≡ self.now.tree }
    {
        &self.tree
    }

    /// Returns the order of the taken block that begins at `frame` of the superblock, or `None` if no taken block begins there.
    pub fn order_at(&self, frame: u32) -> Option<u8>
        requires { frame < 2 ^ self.now.tree.order }
        ensures { result ≡ slice_index_or self.now.orders frame None }
    {
        self.orders[frame as usize]
    }

    /// Returns for each frame the order of the taken block that begins there, or `None`.
    pub fn orders(&self) -> &[Option<u8>]
        ensures same { result.now ≡ self.now.orders }
        ensures size { length result.now ≡ 2 ^ self.now.tree.order }
    {
        &self.orders
    }

    /// Takes the block of `order` that begins at `first` out of the free block of order `from` around it.
    pub fn reserve_at(&mut self, first: u32, from: u8, order: u8)
        requires order { order ≤ from }
        requires from { from ≤ self.old.tree.order }
        requires first { first < 2 ^ self.old.tree.order }
        ensures order { self.new.tree.order ≡ self.old.tree.order }
        ensures inside { first < length self.old.orders }
        ensures orders { self.new.orders ≡ slice_set self.old.orders first (Some order) }
        ensures words { (large small : ℕ → Bool) → Shows self.old.tree.order large self.old.tree.words
            → IsOpen large self.old.tree.order from (number_at from first) → IsLess small large order first
            → Shows self.old.tree.order small self.new.tree.words }
    {
        self.tree.reserve_at(first, from, order);
        self.orders[first as usize] = Some(order);
    }

    /// Frees the taken block of `order` that begins at `first`. While the buddy of the freed block is one free block, the two are
    /// joined. Returns the order of the resulting free block.
    #[inline(always)]
    pub fn release_at(&mut self, first: u32, order: u8) -> u8
        requires order { order ≤ self.old.tree.order }
        requires first { first < 2 ^ self.old.tree.order }
        ensures order { self.new.tree.order ≡ self.old.tree.order }
        ensures inside { first < length self.old.orders }
        ensures orders { self.new.orders ≡ slice_set self.old.orders first None }
        ensures words { (small large : ℕ → Bool) → Shows self.old.tree.order small self.old.tree.words
            → IsLess small large order first → Shows self.old.tree.order large self.new.tree.words }
        ensures joined { (small large : ℕ → Bool) → Shows self.old.tree.order small self.old.tree.words
            → IsLess small large order first
            → (order ≤ result) × IsOpen large self.old.tree.order result (number_at result first) }
    {
        self.orders[first as usize] = None;
        self.tree.release_at(first, order)
    }

    /// Makes a bare superblock one free block. It writes only the root word.
    pub fn fill_bare(&mut self)
        requires { self.old ≡ bare_superblock self.old.tree.order }
        ensures order { self.new.tree.order ≡ self.old.tree.order }
        ensures words { Shows self.old.tree.order (λ _. true) self.new.tree.words }
        ensures orders { self.new.orders ≡ self.old.orders }
    {
        self.tree.fill_bare();
    }

    /// Makes all frames unavailable in a superblock that is one free block. It writes only the root word.
    pub fn empty_whole(&mut self)
        requires whole { Shows self.old.tree.order (λ _. true) self.old.tree.words }
        requires untaken { (x : ℕ) → x < 2 ^ self.old.tree.order → slice_index_or self.old.orders x None ≡ None }
        ensures { self.new ≡ bare_superblock self.old.tree.order }
    {
        self.tree.empty_whole();
    }

    /// Makes all frames unavailable and removes all taken blocks, whichever there are. It writes every word and every order.
    pub fn clear(&mut self)
        ensures { self.new ≡ bare_superblock self.old.tree.order }
    {
        self.tree.clear();
        self.orders.fill(None);
    }
}
