//! The tree of orders of one superblock.
//!
//! Node 1 is the whole superblock, nodes `2i` and `2i + 1` are the halves of node `i`, and the word of node `i` is stored
//! at index `i - 1`. Bit `j` of a word is 1 if and only if a free block of order `j` lies inside the node's block. A free block
//! does not lie inside its own halves, so all words below a node that is one free block are 0.

ghost use Rattle.std.specs.Prelude.{◌≡◌, ℕ, ◌+◌, ◌-◌, ◌*◌, ◌/◌, ◌^◌, ◌<◌, ◌≤◌, Bool, true, false, ◌↔◌, IsTrue, IfOk, length, slice_index};
ghost use Rattle.std.specs.Int.{bit_at};
ghost use Rattle.model_core.specs.declared.limits.TheConstants.{WIDE_ORDER};
ghost use Rattle.model_core.specs.Numbered.{number_at, IsOpen};
ghost use Rattle.buddy_core.specs.Stored.{bare_tree};
ghost use Rattle.buddy_core.specs.Tree.{Shows, IsLess, IsLeast, Mended, IsConfined};

use std::alloc::{AllocError, Global};
use std::marker::Model;

/// The words of the tree of a superblock of `2^order` frames.
#[derive(Debug, Drop)]
pub struct Tree {
    order: u8,
    words: Vec<u16>,
}

impl Model for Tree {
    ghost use Rattle.buddy_core.specs.Stored.{StoredTree, IsTree};

    ghost Value = { StoredTree };

    ghost view = { λ a. record { order = a.order; words = a.words.items } };

    ghost invariant = { λ a. IsTree a.order a.words.items };
}

/// Returns true if the block of a node with this word contains a free block of `order`. `order` must be at most 15.
pub fn has(word: u16, order: u8) -> bool
    requires { order < 16 }
    ensures { IsTrue result ↔ (bit_at word order ≡ 1) }
{
    (word >> order) & 1 == 1
}

/// Returns the node whose block is the buddy of this node's block.
fn sibling(node: usize) -> usize
    requires { 0 < node }
    ensures { result + node ≡ 4 * (node / 2) + 1 }
{
    node ^ 1
}

/// Returns the node of the block of `order` around the frame whose node is `leaf`, or 0 if the superblock is smaller than that
/// block.
fn node_of(leaf: u32, order: u8) -> usize
    requires { order < 32 }
    ensures { result ≡ leaf / 2 ^ order }
{
    (leaf >> order) as usize
}

impl Tree {
    /// Makes the tree of a superblock of `2^order` frames, none of them available.
    pub fn new(alloc: Global, order: u8) -> Result<Tree, AllocError>
        requires { order ≤ WIDE_ORDER }
        ensures { IfOk result (λ t. t ≡ bare_tree order) }
    {
        let words = vec![in alloc; 0; (2 << order) - 1]?;
        Ok(Tree { order, words })
    }

    /// Returns the stored words.
    pub fn words(&self) -> &[u16]
        ensures same { result.now ≡ self.now.words }
        ensures size { length result.now + 1 ≡ 2 ^ (self.now.order + 1) }
    {
        &self.words
    }

    /// Returns the word of the whole superblock.
    pub fn root(&self) -> u16
        ensures { result ≡ slice_index self.now.words 0 }
    {
        self.words[0]
    }

    /// Makes every frame of a bare tree available: the whole superblock is one free block. It writes only the root word.
    pub fn fill_bare(&mut self)
        requires { self.old ≡ bare_tree self.old.order }
        ensures order { self.new.order ≡ self.old.order }
        ensures words { Shows self.old.order (λ _. true) self.new.words }
    {
        self.words[0] = 1 << self.order;
    }

    /// Makes all frames unavailable in a tree of which every frame is available. It writes only the root word.
    pub fn empty_whole(&mut self)
        requires { Shows self.old.order (λ _. true) self.old.words }
        ensures { self.new ≡ bare_tree self.old.order }
    {
        self.words[0] = 0;
    }

    /// Makes all frames unavailable, whichever are available. It writes every word.
    pub fn clear(&mut self)
        ensures { self.new ≡ bare_tree self.old.order }
    {
        self.words.fill(0);
    }

    /// Returns the first frame of the first free block of `order`. There must be one, that is, bit `order` of the root word is 1.
    pub fn search(&self, order: u8) -> u32
        requires { order ≤ self.now.order }
        ensures within { result < 2 ^ self.now.order }
        ensures found { (ok : ℕ → Bool) → Shows self.now.order ok self.now.words
            → bit_at (slice_index self.now.words 0) order ≡ 1
            → (number_at order result * 2 ^ order ≡ result) × IsLeast ok self.now.order order (number_at order result) }
    {
        let words = self.words.as_slice();
        // Nodes 1 to `inner` have blocks of larger orders. The loop tests the node, so it needs no counter. Only the loop's
        // invariant uses `level`.
        let inner = words.len() >> (order + 1);
        let mut level = order;
        let mut node = 1;
        while node <= inner {
            node = 2 * node + 1 - usize::from(has(words[2 * node - 1], order));
            level += 1;
        }
        ((node as u32) << order) - (1 << self.order)
    }

    /// Splits the free block of order `from` around frame `first`, and takes the block of `order` around that frame out of it.
    pub fn reserve_at(&mut self, first: u32, from: u8, order: u8)
        requires order { order ≤ from }
        requires from { from ≤ self.old.order }
        requires first { first < 2 ^ self.old.order }
        ensures order { self.new.order ≡ self.old.order }
        ensures words { (large small : ℕ → Bool) → Shows self.old.order large self.old.words
            → IsOpen large self.old.order from (number_at from first) → IsLess small large order first
            → Shows self.old.order small self.new.words }
    {
        let leaf = self.leaf_of(first);
        self.split(leaf, first, from, order);
        self.climb(leaf, first, from);
    }

    /// Makes the block of `order` around frame `first` available. While the buddy of the freed block is one free block, the two
    /// are joined. Returns the order of the resulting free block.
    #[inline(always)]
    pub fn release_at(&mut self, first: u32, order: u8) -> u8
        requires order { order ≤ self.old.order }
        requires first { first < 2 ^ self.old.order }
        ensures order { self.new.order ≡ self.old.order }
        ensures words { (small large : ℕ → Bool) → Shows self.old.order small self.old.words → IsLess small large order first
            → Shows self.old.order large self.new.words }
        ensures joined { (small large : ℕ → Bool) → Shows self.old.order small self.old.words → IsLess small large order first
            → (order ≤ result) × IsOpen large self.old.order result (number_at result first) }
    {
        let leaf = self.leaf_of(first);
        let joined = self.join(leaf, first, order);
        self.climb(leaf, first, joined);
        joined
    }

    /// Returns the node of frame `first`. Each change of the tree computes it only once: after a write to the words the compiler
    /// would load the order again.
    fn leaf_of(&self, first: u32) -> u32
        requires { first < 2 ^ self.now.order }
        ensures { result ≡ 2 ^ self.now.order + first }
    {
        (1 << self.order) + first
    }

    /// Writes the words of all larger blocks that contain the block of `order` around frame `first`, each from the words of its
    /// halves. It does not stop at a word that stays the same: most changes reach the root or come close to it, so a test at each
    /// level would cost more than it saves.
    #[inline(always)]
    fn climb(&mut self, leaf: u32, first: u32, order: u8)
        requires order { order ≤ self.old.order }
        requires first { first < 2 ^ self.old.order }
        requires leaf { leaf ≡ 2 ^ self.old.order + first }
        ensures order { self.new.order ≡ self.old.order }
        ensures words { (old new : ℕ → Bool) → Mended self.old.order order first old new self.old.words
            → IsConfined self.old.order order first old new → Shows self.old.order new self.new.words }
    {
        let mut level = order;
        let words: &mut [u16] = &mut self.words;
        let mut around = node_of(leaf, level + 1);
        while around > 0 {
            words[around - 1] = words[2 * around - 1] | words[2 * around];
            around /= 2;
            level += 1;
        }
    }

    /// Takes the block of `order` around frame `first` out of the free block of order `from` around that frame, and writes the
    /// words inside the free block. One free block of each order from `order` to `from - 1` remains.
    #[inline(always)]
    fn split(&mut self, leaf: u32, first: u32, from: u8, order: u8)
        requires order { order ≤ from }
        requires from { from ≤ self.old.order }
        requires first { first < 2 ^ self.old.order }
        requires leaf { leaf ≡ 2 ^ self.old.order + first }
        ensures order { self.new.order ≡ self.old.order }
        ensures mended { (large small : ℕ → Bool) → Shows self.old.order large self.old.words
            → IsOpen large self.old.order from (number_at from first) → IsLess small large order first
            → Mended self.old.order from first large small self.new.words }
    {
        let words: &mut [u16] = &mut self.words;
        let mut node = node_of(leaf, order);
        let mut word = 0;
        words[node - 1] = 0;
        for level in order..from {
            words[sibling(node) - 1] = 1 << level;
            word |= 1 << level;
            node /= 2;
            words[node - 1] = word;
        }
    }

    /// Makes the block of `order` around frame `first` available. While the buddy of the freed block is one free block, the two
    /// are joined. Writes the words inside the resulting free block and returns its order.
    #[inline(always)]
    fn join(&mut self, leaf: u32, first: u32, order: u8) -> u8
        requires order { order ≤ self.old.order }
        requires first { first < 2 ^ self.old.order }
        requires leaf { leaf ≡ 2 ^ self.old.order + first }
        ensures order { self.new.order ≡ self.old.order }
        ensures rises { order ≤ result }
        ensures within { result ≤ self.old.order }
        ensures mended { (small large : ℕ → Bool) → Shows self.old.order small self.old.words → IsLess small large order first
            → Mended self.old.order result first small large self.new.words
            × IsOpen large self.old.order result (number_at result first) }
    {
        let top = self.order;
        let words: &mut [u16] = &mut self.words;
        let mut node = node_of(leaf, order);
        for level in order..top {
            let buddy = sibling(node);
            if words[buddy - 1] != 1 << level {
                words[node - 1] = 1 << level;
                return level;
            }
            words[buddy - 1] = 0;
            words[node - 1] = 0;
            node /= 2;
        }
        words[node - 1] = 1 << top;
        top
    }
}
