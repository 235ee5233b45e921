//! Worked traces with their whole output, in one table for each topic.

mod caches;
mod limits;
mod lines;
mod moves;
pub mod own;
mod pages;
mod reaping;
mod slots;

use kernel_core::Config;

/// The small machine, on which most rows run.
pub const MACHINE: Config = Config {
    order: 3,
    superblocks: 2,
    tenants: 2,
};

/// A machine with more superblocks and tenants.
pub const WIDER: Config = Config {
    superblocks: 3,
    tenants: 3,
    ..MACHINE
};

/// A machine with the largest numbers of superblocks and tenants.
pub const WIDEST: Config = Config {
    superblocks: 256,
    tenants: 64,
    ..MACHINE
};

/// A trace, and its whole output.
#[derive(Debug)]
pub struct Row {
    pub trace: &'static [u8],
    pub output: &'static [u8],
}

/// Rows that run on machines of the same sizes. Their outputs are all for the same tenant, or all for all tenants.
#[derive(Clone, Copy, Debug)]
pub struct Table {
    pub name: &'static str,
    pub config: Config,
    /// The only tenant whose lines are written. `None` means that all lines are written.
    pub only: Option<u8>,
    pub rows: &'static [Row],
}

/// Returns all tables.
pub fn tables() -> [Table; 10] {
    [
        of_all("lines", &lines::ROWS),
        of_all("pages", &pages::ROWS),
        of_all("slots", &slots::ROWS),
        of_all("caches", &caches::ROWS),
        of_all("reaping", &reaping::ROWS),
        of_all("moves", &moves::ROWS),
        of_tenant(0, MACHINE, &own::ROWS),
        of_tenant(1, MACHINE, &own::OTHER_ROWS),
        of_tenant(0, WIDER, &own::THREE_ROWS),
        Table {
            config: WIDEST,
            ..of_all("limits", &limits::ROWS)
        },
    ]
}

/// Returns a table of rows on the small machine, whose output has all lines.
fn of_all(name: &'static str, rows: &'static [Row]) -> Table {
    Table {
        name,
        config: MACHINE,
        only: None,
        rows,
    }
}

/// Returns a table of rows whose output has only the lines for one tenant.
fn of_tenant(tenant: u8, config: Config, rows: &'static [Row]) -> Table {
    Table {
        name: "of a tenant",
        config,
        only: Some(tenant),
        rows,
    }
}
