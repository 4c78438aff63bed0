// A section below the contents, line by line.
ghost use Rattle.std.specs.Prelude.{◌≡◌, ◌≤◌, [], length, take, drop, IfOk, OnOk};
ghost use Rattle.std.specs.Result.{result_map_both};
ghost use Rattle.tables.specs.Rows.{laid, in_use};
ghost use Rattle.text.specs.Lines.{lines_left};
ghost use Rattle.grammar.specs.Lines.{line_read};
ghost use Rattle.sheet.specs.Sections.{section_read};

use super::lines::read_row;
use faults::SheetFault;
use grammar::{LineKind, Standing};
use tables::rows::Rows;
use text::reader::Reader;

// So many lines of one kind, each read below the rows of those before it; `zero` fills the rows that are not in use.
pub(super) fn read_section<K: LineKind, const N: usize>(
    kind: &K,
    zero: K::Row,
    count: u8,
    reader: &mut Reader,
) -> Result<Rows<K::Row, N>, SheetFault>
    requires counted { N ≤ 255 }
    requires room { count ≤ N }
    requires lines { count ≤ length (lines_left reader.old) }
    ensures gives { section_read (λ above from. line_read (K.follows kind.now above from) K.gives K.missing K.begins) [] reader.old.position (take count (lines_left reader.old)) ≡ result_map_both (in_use N) (λ fault. fault) result }
    ensures laid { IfOk result (λ rows. rows ≡ laid N zero (in_use N rows)) }
    ensures leaves { OnOk result (lines_left reader.new ≡ drop count (lines_left reader.old)) }
{
    let mut rows = Rows::new(zero);
    'section: for _n in 0..count {
        let from = reader.position() as u16;
        let at = Standing {
            above: rows.as_slice(),
            from,
        };
        let row = read_row(kind, &at, reader.line())?;
        let _ = rows.push(row);
    }
    Ok(rows)
}
