//! The kinds of slabs.

ghost use Rattle.std.specs.Prelude.{◌≡◌, true};

/// The kind of a slab, by how many of its objects are live. Each cache has one list for each kind.
#[derive(Clone, Copy, Debug, PartialEq, Eq)]
pub enum Kind {
    /// All objects are live.
    Full,
    /// Some objects are live, but not all.
    Partial,
    /// No object is live.
    Empty,
}

impl Kind {
    ghost use Rattle.slab_tables.specs.Content.{kind_number, kind_of};

    /// Returns the kind of a slab that has `count` objects, `live` of them live.
    pub fn of(count: u32, live: u32) -> Kind
        ensures { kind_number result ≡ kind_of count live }
    {
        if live == count {
            Kind::Full
        } else if live == 0 {
            Kind::Empty
        } else {
            Kind::Partial
        }
    }

    /// Returns the index of the kind's list among the three lists of a cache, from 0 to 2.
    pub(crate) fn number(self) -> u32
        ensures { result ≡ kind_number self }
    {
        match self {
            Kind::Full => 0,
            Kind::Partial => 1,
            Kind::Empty => 2,
        }
    }
}

/// The number of objects of a slab, and how many of them are live before a change and after it.
#[derive(Clone, Copy)]
pub(crate) struct Counts {
    pub(crate) total: u32,
    pub(crate) before: u32,
    pub(crate) after: u32,
}

impl Counts {
    ghost use Rattle.slab_tables.specs.Content.{kind_of};

    /// Returns true if the slab is partial before and after the change.
    ///
    /// A take adds 1 to the number of live objects, and a give subtracts 1. So after inlining the compiler knows which of the two
    /// counts is less, and two comparisons remain.
    #[inline(always)]
    pub(crate) fn stay_partial(self) -> bool
        ensures before { result ≡ true → kind_of self.total self.before ≡ 1 }
        ensures after { result ≡ true → kind_of self.total self.after ≡ 1 }
    {
        if self.before < self.after {
            0 < self.before && self.after < self.total
        } else {
            0 < self.after && self.before < self.total
        }
    }
}
