// A framework: a table of relay lines over so many atoms.
ghost use Rattle.std.specs.Prelude.{◌≡◌};
ghost use Rattle.frameworks.specs.Frameworks.{width_of, sure_of, may_of};
ghost use Rattle.frameworks.specs.Standing.{framework_laws};

use super::table::RelayTable;
use approx::Approximator;
use atoms::{Bounds, Interpretation, clipped, width_read};

#[derive(Clone, Copy)]
pub struct Framework {
    width: u8,
    table: RelayTable,
}

impl Framework {
    // A framework of these lines. Its width is taken as 1 if it is less, and as 64 if it is more.
    // Like `new` of a cut-out and of a program it says what its own fields are; the three have nothing else in common.
    pub fn new(width: u8, table: RelayTable) -> Framework
        ensures same_width { result.width ≡ width }
        ensures same_table { result.table ≡ table }
    {
        Framework { width, table }
    }
}

impl Approximator for Framework {
    ghost width = { width_of };

    ghost sure = { sure_of };

    ghost may = { may_of };

    ghost laws = { framework_laws };

    fn width(&self) -> u8 {
        width_read(self.width)
    }

    fn sure(&self, bounds: Bounds) -> Interpretation {
        let width = self.width();
        self.table.unattacked(width, clipped(bounds.upper, width))
    }

    fn may(&self, bounds: Bounds) -> Interpretation {
        let width = self.width();
        self.table.unattacked(width, clipped(bounds.lower, width))
    }
}
