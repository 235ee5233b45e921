//! The picture of a trace, in SVG.

ghost use Rattle.std.specs.Prelude.{◌≡◌, ◌+◌, min, IfOk, IfSome, IfNone, option_copied};
ghost use Rattle.frame_picture.specs.Grids.{IsGridOf};
ghost use Rattle.frame_picture.specs.Histories.{most_columns_of, tenants_of};
ghost use Rattle.picture_svg.specs.Pictures.{drawn_tenants, end_of_tenants, first_tenant, label_gap_of, most_columns_in, most_rows_of, IsPictureOf, IsSamePicture};
ghost use Rattle.picture_svg.specs.Texts.{WritesText};

use crate::svg::{HEAD, band_height, draw_band, draw_head, draw_opening};
use frame_picture::drawing::{MAX_ROWS, Tone, set_cells};
use frame_picture::grid::Grid;
use frame_picture::history::History;
use std::alloc::{AllocError, Global};
use std::io::{self, Write};
use std::ops::Range;

/// The largest number of bands that can have 256 rows each. If there are more bands, each has fewer rows.
const TALL_BANDS: u32 = 4;

/// The tenants that are drawn, and the cells of one band.
#[derive(Debug, Drop)]
pub struct Picture {
    /// The number of the first tenant that is drawn, and the number of the last one plus 1.
    first: u8,
    end: u8,
    cells: Vec<[Tone; MAX_ROWS]>,
    /// The number of pixels by which the word `refused` is moved down, away from the lowest number of the axis.
    label_gap: u32,
}

impl Picture {
    /// Returns a picture with a band for tenant `only`, or for every tenant if `only` is `None`. It has cells for as many columns
    /// as this history can have. Fails if memory runs out.
    pub fn new(alloc: Global, history: &History, only: Option<u8>) -> Result<Picture, AllocError>
        ensures one { IfOk result (λ picture. IfSome only
            (λ t. (first_tenant picture ≡ t) × (end_of_tenants picture ≡ min (t + 1) u8.MAX))) }
        ensures all { IfOk result (λ picture. IfNone only
            ((first_tenant picture ≡ 0) × (end_of_tenants picture ≡ tenants_of history.now))) }
        ensures columns { IfOk result (λ picture. most_columns_in picture ≡ most_columns_of history.now) }
        ensures gap { IfOk result (λ picture. label_gap_of picture ≡ 0) }
    {
        let (first, end) = match only {
            Some(t) => (t, t.saturating_add(1)),
            None => (0, history.tenants() as u8),
        };
        Ok(Picture {
            first,
            end,
            cells: vec![in alloc; [Tone::NOT_HELD; MAX_ROWS]; history.most_columns()]?,
            label_gap: 0,
        })
    }

    /// Moves the word `refused` down by this number of pixels, so that it does not overlap the lowest number of the axis.
    pub fn set_label_gap(&mut self, pixels: u32)
        ensures { self.new ≡ record self.old { label_gap = pixels } }
    {
        self.label_gap = pixels;
    }

    /// Draws the frames of a history, with the name of its trace, and flushes. If the history has more columns than the picture
    /// has cells for, only the first columns are drawn. Fails if the writer fails.
    pub fn draw<W: Write>(
        &mut self,
        history: &History,
        name: Option<&str>,
        out: &mut W,
    ) -> io::Result<()>
        ensures kept { IsSamePicture self.old self.new }
        ensures drawn { WritesText result (W.contents out.old) (W.contents out.new)
            (IsPictureOf self.old history.now (option_copied name.entry)) }
    {
        let mut height = HEAD;
        for t in self.first..self.end {
            height = height.saturating_add(band_height(self.grid(history, t)));
        }
        draw_opening(out, height)?;
        draw_head(out, history, name)?;
        let mut top = HEAD;
        for t in self.first..self.end {
            let grid = self.grid(history, t);
            set_cells(&mut self.cells, history.columns(), t, grid);
            let columns = history.columns().len().min(self.cells.len());
            let (cells, gap) = (&self.cells[..columns], self.label_gap);
            draw_band(out, history, t, grid, cells, top, gap)?;
            top = top.saturating_add(band_height(grid));
        }
        out.write_all(b"</svg>\n")?;
        out.flush()
    }

    /// Returns the grid of a tenant's band.
    fn grid(&self, history: &History, t: u8) -> Grid
        ensures { IsGridOf history.now t (most_rows_of (drawn_tenants self.now)) result }
    {
        let bands = u32::from(self.end.saturating_sub(self.first)).max(TALL_BANDS);
        let most_rows = TALL_BANDS * MAX_ROWS as u32 / bands;
        Grid::of(history, t, most_rows)
    }
}
