//! Traces whose output is only the replies to one tenant.

use super::Row;

/// The replies to tenant 0, which are the same whether it is alone on its machine or among others.
const TOLD: &[u8] = b"0> frame 0\n0> written 1\n0> cache 0 chunk 24 order 0 objects 169 colours 2\n\
    0> object 8192\n0> frames 8 live 3 free 5 top 2 split 200\n\
    0> order 0 free 1 taken 1\n0> order 1 free 0 taken 1\n0> order 2 free 1 taken 0\n\
    0> order 3 free 0 taken 0\n0> cache 0 full 0 partial 1 empty 0 live 1\n";

/// A trace in which tenant 0 gets the replies `TOLD`. Tenant 1 has memory too, is reset, and then gets memory again.
const AMONG_OTHERS: &[u8] =
    b"admin grant 1\n1 alloc 0\n1 write 0 ffff\nadmin grant 0\n1 cache 24 8 99\n\
    0 alloc 1\n1 take 0\n0 write 8191 7f\nadmin reset 1\n0 cache 24 8 c3\nadmin grant 1\n\
    admin grant 1\n0 take 0\n0 report\n";

/// A trace in which tenant 1 gets all superblocks, and tenant 0 gets none.
const UNEQUAL: &[u8] =
    b"admin grant 1\nadmin grant 1\nadmin grant 0\nadmin pool\n1 alloc 3\n1 alloc 3\n\
    0 alloc 0\nadmin reset 1\n";

/// Traces with the lines for tenant 0.
pub static ROWS: [Row; 5] = [
    // Tenant 0 is alone on its machine.
    Row {
        trace: b"admin grant 0\n0 alloc 1\n0 write 8191 7f\n0 cache 24 8 c3\n0 take 0\n0 report\n",
        output: TOLD,
    },
    Row {
        trace: AMONG_OTHERS,
        output: TOLD,
    },
    // Replies to the administrator are not shown.
    Row {
        trace: b"admin grant 0\n0 alloc 0\n0 read 0 4\n",
        output: b"0> frame 0\n0> bytes 00000000\n",
    },
    // Replies to faulty lines are not shown either.
    Row {
        trace: b"# note\n\nfrob\n",
        output: b"",
    },
    Row {
        trace: UNEQUAL,
        output: b"0> refused 1 NoFrames\n",
    },
];

/// A trace with the lines for tenant 1.
pub static OTHER_ROWS: [Row; 1] = [Row {
    trace: UNEQUAL,
    output: b"1> frame 0\n1> frame 8\n",
}];

/// A trace with the lines for tenant 0, on a machine of three superblocks and three tenants.
pub static THREE_ROWS: [Row; 1] = [Row {
    trace: AMONG_OTHERS,
    output: TOLD,
}];
