//! Places on the plane that a number determines, so that another program can draw the same.

use planar_geom::{BBox, MAX_COORD, Pt};

/// The side of the square round the origin on which places stand.
pub(crate) const SIDE: i64 = 1 << 30;

/// The generator of places, a linear congruence.
#[derive(Drop)]
pub(crate) struct Places {
    state: u64,
}

impl Places {
    pub(crate) fn of(seed: u64) -> Places {
        Places { state: seed }
    }

    // A coordinate, by the upper bits: the lower ones soon repeat.
    fn draw(&mut self) -> i64 {
        self.state = self
            .state
            .wrapping_mul(6364136223846793005)
            .wrapping_add(1442695040888963407);
        let number = i64::try_from(self.state >> 34).unwrap_or(0);
        number.saturating_sub(SIDE / 2)
    }

    /// The next place.
    pub(crate) fn draw_place(&mut self) -> Option<Pt> {
        let x = self.draw();
        let y = self.draw();
        Pt::of(x, y)
    }

    /// The box of this side at the next place, its least corner.
    pub(crate) fn draw_box(&mut self, side: i64) -> Option<BBox> {
        let least = self.draw_place()?;
        let x = i64::from(least.x()).saturating_add(side);
        let y = i64::from(least.y()).saturating_add(side);
        let greatest = Pt::of(x.min(MAX_COORD), y.min(MAX_COORD))?;
        BBox::of(least, greatest)
    }
}

/// The side of a window in which ten of so many places stand, on average.
pub(crate) fn window_side(count: u64) -> i64 {
    let area = (SIDE as u64).saturating_mul(SIDE as u64);
    let each = area.checked_div(count).unwrap_or(0);
    i64::try_from(each.saturating_mul(10).isqrt()).unwrap_or(0)
}
