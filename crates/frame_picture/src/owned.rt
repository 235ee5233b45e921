//! The indices of a tenant's sheets in a column.

ghost use Rattle.std.specs.Prelude.{◌≡◌, ℕ, ◌<◌, ◌≤◌, false, []};
ghost use Rattle.frame_picture.specs.Rows.{cells_in};
ghost use Rattle.frame_picture.specs.Owned.{IsOwn};

use crate::history::Sheet;
use model_core::limits::MAX_SUPERBLOCKS;

/// The largest number of sheets that are listed for a tenant. On a machine within its limits, a tenant has no more.
pub const MAX_LISTED: usize = MAX_SUPERBLOCKS as usize;

/// The indices of a tenant's sheets in a column, found once for all rows.
#[derive(Debug, Drop)]
pub struct OwnSheets {
    /// The indices of the tenant's first sheets, in ascending order. Only the first `len` entries are used.
    pub listed: [u16; MAX_LISTED],
    pub len: usize,
    /// The index of the first sheet that was not searched. On a machine within its limits, neither this sheet nor a later one is
    /// the tenant's.
    pub rest: usize,
}

impl OwnSheets {
    /// Returns an empty list.
    pub fn new() -> OwnSheets {
        let listed = [0; MAX_LISTED];
        OwnSheets {
            listed,
            len: 0,
            rest: 0,
        }
    }

    /// Lists the indices of the sheets of tenant `t`. Replaces the old list.
    pub fn list(&mut self, sheets: &[Sheet], t: u8)
        ensures { IsOwn t sheets.now self.new }
    {
        let most = sheets.len().min(1 << 16);
        // These counts are local, since fields of `self` would be written back after each sheet.
        let (mut len, mut rest) = (0, 0);
        'sheets: while rest < most && len < MAX_LISTED {
            if is_of(&sheets[rest], t) {
                self.listed[len] = rest as u16;
                len += 1;
            }
            rest += 1;
        }
        self.len = len;
        self.rest = rest;
    }
}

/// Returns whether tenant `t` owns the superblock of a sheet.
fn is_of(sheet: &Sheet, t: u8) -> bool
    ensures { result ≡ false → (order first end : ℕ) → cells_in order t first end sheet.now ≡ [] }
{
    match sheet.owner {
        Some(owner) => owner.tenant == t,
        None => false,
    }
}
