//! Where things stand in a picture: numbers of units to the right and down.

ghost use Rattle.std.specs.Prelude.{◌≡◌, ◌+◌, ◌*◌, ◌^◌, ◌<◌, ◌≤◌};
ghost use Rattle.csp_picture.specs.Places.{across, top, down, width, height, dash};

use csp_scene::{MAX_LINKS, MAX_NODES};

/// Where the first column stands.
pub const FIRST: u64 = 150;

/// How far apart columns are.
pub const COLUMN: u64 = 270;

/// A picture is at least so wide, for its legend.
pub const LEAST_WIDTH: u64 = 690;

/// Where the columns of a picture without links begin.
pub const TOP: u64 = 66;

/// How far apart the lines of the legend are.
pub const LEGEND_STEP: u64 = 18;

/// How far apart rows are: a label, which stands above its row, ends below the row before.
pub const STEP: u64 = 24;

/// How much there is below the last row.
pub const BELOW: u64 = 30;

/// How much longer than the dashes of a link those of the next one are.
pub const DASH: u64 = 3;

/// Where the line of the node in this place stands.
pub(crate) fn across(node: usize) -> u64
    requires { node ≤ 255 }
    ensures place { result ≡ across node }
    ensures range { result < 2 ^ 20 }
{
    FIRST + COLUMN * node as u64
}

/// Where the columns begin.
pub(crate) fn top(links: usize) -> u64
    requires { links ≤ MAX_LINKS }
    ensures place { result ≡ top links }
    ensures range { (20 ≤ result) × (result < 2 ^ 20) }
{
    TOP + LEGEND_STEP * links as u64
}

/// The row of this number, from 0.
pub(crate) fn down(links: usize, row: u32) -> u64
    requires { links ≤ MAX_LINKS }
    ensures place { result ≡ down links row }
    ensures range { (40 ≤ result) × (result < 2 ^ 40) }
{
    top(links) + STEP * (u64::from(row) + 1)
}

/// How wide a picture is.
pub(crate) fn width(nodes: usize) -> u64
    requires { nodes ≤ MAX_NODES }
    ensures { result ≡ width nodes }
{
    LEAST_WIDTH.max(COLUMN * nodes as u64)
}

/// How high a picture is.
pub(crate) fn height(links: usize, rows: u32) -> u64
    requires { links ≤ MAX_LINKS }
    ensures { result ≡ height links rows }
{
    down(links, rows) + BELOW
}

/// How long the dashes of a link's lines are.
pub(crate) fn dash(link: usize) -> u64
    requires { link ≤ 255 }
    ensures { result ≡ dash link }
{
    DASH * link as u64
}
