// The keeper's desk: a sheet is settled and listed, and each line of input is answered by one line, until `close` or the end.
#![tactic(auto)]

ghost use Rattle.std.specs.Prelude.{◌≡◌, ◌≤◌, ◌++◌, List, length, OnOk, IfOk};
ghost use Rattle.std.specs.Io.KnownBytes.{Appends};
ghost use Rattle.report.specs.Answers.{AppendsSome};
ghost use Rattle.keeper.specs.declared.reply.Reply.{Reply};
ghost use Rattle.keeper.specs.Texts.{reply_text, is_last};
ghost use Rattle.keeper.specs.Desk.{AnswersLine};
ghost use Rattle.keeper.specs.Sessions.{Exchange, AnswersEach, EndsAs, replies_text, ending_text, IsKept, IsOpened};
ghost use Rattle.keeper.specs.Refusals.{newline};

mod command;
mod desk;
mod marks;
mod refusal;
mod reply;
mod standing;
#[cfg(test)]
mod tests;

use approx::Approximator;
use engine::Settled;
use marks::Marks;
use pegboard::Pegboard;
use refusal::write_refused;
use reply::Reply;
use report::{Pile, settled};
use std::io::{BufWriter, Write};
use std::rt::{Env, Files};
use std::{env, fs, io};
use tables::table::Table;

// How a session came to its end.
#[derive(Clone, Copy, Debug, PartialEq, Eq)]
enum Ending {
    Closed,
    InputOver,
}

// Writes a reply in one line.
fn write_reply<W: Write>(out: &mut W, reply: &Reply<'_>) -> io::Result<()>
    ensures { OnOk result (Appends (W.contents out.old) (W.contents out.new) (reply_text reply.now ++ newline)) }
{
    writeln!(out, "{reply}")
}

// Answers a line; whether that was the last. The board and the marks stay two: the one is changed, and the other only read.
fn answer<A: Approximator, W: Write>(
    board: &mut Pegboard<A>,
    marks: Marks<'_>,
    line: &str,
    out: &mut W,
) -> io::Result<bool>
    ensures { (r : Reply)
        × AnswersLine A.Approximator marks.entry line.now board.old.listing board.new.listing r
        × IfOk result (λ last. (last ≡ is_last r)
        × Appends (W.contents out.old) (W.contents out.new) (reply_text r ++ newline)) }
{
    let reply = desk::reply(board, marks, line);
    write_reply(out, &reply)?;
    out.flush()?;
    Ok(reply.is_last())
}

// Answers line after line.
fn attend<A: Approximator, W: Write>(
    rt: &(impl Input + AllocGlobal),
    board: &mut Pegboard<A>,
    marks: Marks<'_>,
    out: &mut W,
) -> io::Result<Ending>
    ensures { (xs : List Exchange)
        × AnswersEach A.Approximator marks.entry board.old.listing xs board.new.listing
        × IfOk result (λ ending. EndsAs xs ending
        × Appends (W.contents out.old) (W.contents out.new) (replies_text xs)) }
{
    for line in rt.lines(rt.alloc()) {
        let line = line?;
        if answer(board, marks, line.as_str(), out)? {
            return Ok(Ending::Closed);
        }
    }
    Ok(Ending::InputOver)
}

// Writes how many pegs were pulled where the input is over; of a session that was closed there is no more to say.
fn write_ending<W: Write>(out: &mut W, ending: Ending, pegs: u32) -> io::Result<()>
    ensures { OnOk result (Appends (W.contents out.old) (W.contents out.new) (ending_text ending pegs)) }
{
    match ending {
        Ending::Closed => Ok(()),
        Ending::InputOver => write_reply(out, &Reply::Ended(pegs)),
    }
}

// Lists the settled board and attends to it; whatever happens there, all pegs are pulled in the end.
fn keep<A: Approximator + Drop, W: Write>(
    rt: &(impl Input + AllocGlobal),
    board: Settled<A>,
    names: &[&str],
    out: &mut W,
) -> io::Result<()>
    requires { length names.now ≤ 64 }
    ensures { OnOk result (AppendsSome (IsKept A.Approximator names.now board) (W.contents out.old) (W.contents out.new)) }
{
    let marks = Marks::new(names, board.bounds());
    let mut board = match Pegboard::list(rt.alloc(), board) {
        Ok(board) => board,
        Err(refused) => return write_refused(out, &[], refused.into()),
    };
    let ending = attend(rt, &mut board, marks, out);
    let pegs = board.pegs();
    let _settled = board.finish();
    write_ending(out, ending?, pegs)?;
    out.flush()
}

// Settles the sheet and keeps it, or says why it is refused.
fn open<W: Write>(rt: &(impl Input + AllocGlobal), text: &[u8], out: &mut W) -> io::Result<()>
    ensures { OnOk result (AppendsSome (IsOpened ⟦<Pile as Approximator>⟧ text.now) (W.contents out.old) (W.contents out.new)) }
{
    let mut table = Table::fresh();
    match settled(&mut table, text) {
        Ok(board) => {
            let names = marks::names_of(rt.alloc(), &table, text)?;
            keep(rt, board, &names, out)
        }
        Err(fault) => {
            write_refused(out, text, fault)?;
            out.flush()
        }
    }
}

fn run(rt: &(impl Input + Print + Files + Env + AllocGlobal)) -> io::Result<()> {
    let mut args = env::args(rt)?;
    let Some(path) = args.nth(1) else {
        return println!(rt; "say: keeper SHEET, and then one command a line");
    };
    let text = fs::read(rt, path.as_str())?;
    let mut out = BufWriter::new(rt.alloc(), io::writer(rt))?;
    open(rt, &text, &mut out)
}

fn main(rt: HostRuntime) -> io::Result<()> {
    run(&rt)
}
