// Rows that grow by one.
ghost use Rattle.std.specs.Prelude.{◌≡◌};
ghost use Rattle.tables.specs.Rows.{pushed};

use tables::rows::Rows;

// The rows with one item more, where there is room for it.
pub(super) fn with_item<T: Copy, const N: usize>(mut rows: Rows<T, N>, item: T) -> Rows<T, N>
    ensures { result ≡ pushed N rows item }
{
    let _ = rows.push(item);
    rows
}
