//! Traces on the largest machine.

use super::Row;

/// Rows for a machine of 256 superblocks and 64 tenants.
pub static ROWS: [Row; 1] = [
    // Tenant 63 is the last tenant, and 64 is the first number that names no tenant.
    Row {
        trace: b"63 alloc 0\n64 alloc 0\n",
        output: b"63> refused 1 NoFrames\n!> refused 12 NoTenant\n",
    },
];
