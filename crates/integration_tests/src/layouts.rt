//! Fixed values that layouts of slabs, and patterns of new objects, have to return.

use layout_core::{Layout, Pattern};
use std::process::Abort;

/// The size and alignment of an object; then its chunk, the order of a slab, the slab's bytes for objects, its number of objects,
/// its bytes after the last object, and its number of colours.
type Row = (u32, u32, u32, u8, u32, u32, u32, u32);

const ROWS: [Row; 22] = [
    (1, 8, 16, 0, 4064, 254, 0, 1),
    (16, 16, 16, 0, 4064, 254, 0, 1),
    (17, 8, 24, 0, 4064, 169, 8, 2),
    (24, 8, 24, 0, 4064, 169, 8, 2),
    (64, 8, 64, 0, 4064, 63, 32, 5),
    (64, 64, 64, 0, 4064, 63, 32, 1),
    (65, 64, 128, 0, 4064, 31, 96, 2),
    (100, 8, 104, 0, 4064, 39, 8, 2),
    (200, 8, 200, 0, 4064, 20, 64, 9),
    (256, 256, 256, 0, 4064, 15, 224, 1),
    (504, 8, 504, 0, 4064, 8, 32, 5),
    (505, 8, 512, 0, 4096, 8, 0, 1),
    (600, 8, 600, 0, 4096, 6, 496, 63),
    (700, 8, 704, 1, 8192, 11, 448, 57),
    (1024, 8, 1024, 0, 4096, 4, 0, 1),
    (1500, 8, 1504, 1, 8192, 5, 672, 85),
    (2048, 8, 2048, 0, 4096, 2, 0, 1),
    (2100, 8, 2104, 2, 16384, 7, 1656, 208),
    (2800, 8, 2800, 3, 32768, 11, 1968, 247),
    (3000, 8, 3000, 2, 16384, 5, 1384, 174),
    (4095, 256, 4096, 0, 4096, 1, 0, 1),
    (4096, 8, 4096, 0, 4096, 1, 0, 1),
];

/// Returns whether a layout has the numbers of a row. A slab of small objects has 4,064 bytes for objects, since its record is
/// the last 32 bytes of its frame.
fn has_numbers(layout: &Layout, row: Row) -> bool {
    let (size, align, chunk, order, bytes, count, rest, colours) = row;
    layout.size() == size
        && layout.align() == align
        && layout.chunk() == chunk
        && layout.order() == order
        && layout.count() == count
        && layout.colours() == colours
        && layout.in_page() == (bytes == 4064)
        && chunk.wrapping_mul(count).wrapping_add(rest) == bytes
        && rest / align.max(1) == colours.wrapping_sub(1)
}

#[test]
fn layouts_have_these_numbers(rt: HostRuntime) {
    for row in ROWS {
        let layout = Layout::of(row.0, row.1).ok();
        let fits = layout.is_some_and(|layout| has_numbers(&layout, row));
        assert!(rt; fits, "size {}, alignment {}", row.0, row.1);
    }
}

/// In a slab of the second colour, objects of 100 bytes are found at their offsets.
#[test]
fn objects_are_found(rt: HostRuntime) {
    let Ok(layout) = Layout::of(100, 8) else {
        panic!(rt; "objects of 100 bytes have no layout");
    };
    layout.laws();
    assert!(rt; layout.offset(8, 38) == 3960);
    for (offset, index) in [(3960, Some(38)), (3961, None), (4064, None), (0, None)] {
        assert!(rt; layout.index_of(8, offset) == index, "offset {offset}");
    }
    holds_ranges(&rt, &layout);
}

/// Checks which object contains a range. No object does if the range goes past the object's end, begins before the first object,
/// or has no bytes.
fn holds_ranges(rt: &impl Abort, layout: &Layout) {
    for (offset, len, index) in [
        (3960, 100, Some(38)),
        (3960, 101, None),
        (3960, 0, None),
        (4059, 2, None),
        (0, 1, None),
    ] {
        let holder = layout.holder(8, offset, len);
        assert!(rt; holder == index, "{len} bytes at offset {offset}");
    }
}

#[test]
fn patterns_repeat(rt: HostRuntime) {
    let Some(pattern) = Pattern::new(&[1, 2, 3]) else {
        panic!(rt; "three bytes are no pattern");
    };
    let mut object = [0; 7];
    pattern.fill(&mut object);
    assert!(rt; object == [1, 2, 3, 1, 2, 3, 1]);
    assert!(rt; Pattern::new(&[]).is_none());
    assert!(rt; Pattern::new(&[0; 16]).is_some());
    assert!(rt; Pattern::new(&[0; 17]).is_none());
}
