// What the checked run does not show: a sheet that is refused, and a listing that is closed.
use super::command::Command;
use super::desk::perform;
use super::marks::{Marks, names_of};
use super::refusal::write_refused;
use pegboard::Pegboard;
use report::settled;
use std::test::Fail;
use tables::table::Table;

const BAD: &[u8] = b"marks 1\nloads 0\nrules 1\nrelays 0\nlamp\nlamp when lamp\n";

const GOOD: &[u8] = b"marks 1\nloads 0\nrules 1\nrelays 0\nlamp\nlamp if not lamp\n";

#[test]
fn points_at_the_column(rt: HostRuntime) -> Result<(), Fail> {
    let mut table = Table::fresh();
    let mut out = Vec::new(rt.alloc());
    if let Err(fault) = settled(&mut table, BAD) {
        write_refused(&mut out, BAD, fault)?;
    }
    assert_eq!(rt;
        out.as_slice(),
        b"refused 9 sheet 6 6\nlamp when lamp\n     ^\n".as_slice()
    );
    Ok(())
}

#[test]
fn closes_without_pegs(rt: HostRuntime) -> Result<(), Fail> {
    let mut table = Table::fresh();
    let board = settled(&mut table, GOOD)?;
    let names = names_of(rt.alloc(), &table, GOOD)?;
    let marks = Marks::new(&names, board.bounds());
    let Ok(mut board) = Pegboard::list(rt.alloc(), board) else {
        return Err(Fail::from("not listed"));
    };
    let pegged = perform(&mut board, marks, Command::Peg("lamp", engine::Sense::Off));
    let kept = perform(&mut board, marks, Command::Close);
    let pulled = perform(&mut board, marks, Command::Pull("lamp", engine::Sense::Off));
    let closed = perform(&mut board, marks, Command::Close);
    let _settled = board.finish();
    let told = format!(in rt.alloc(); "{pegged}/{kept}/{pulled}/{closed}")?;
    assert_eq!(rt;
        told.as_str(),
        "lamp is pegged off/refused 19: pegs are in force, 1 of them/lamp is no longer pegged off/closed"
    );
    Ok(())
}
