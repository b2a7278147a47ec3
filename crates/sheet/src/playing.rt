// Playing an event: the book's call for it, and its line, written into a lent buffer.
ghost use Rattle.std.specs.Prelude.{◌≡◌, ◌-◌, take, drop};
ghost use Rattle.conditions.specs.Places.{places};
ghost use Rattle.sheet.specs.Play.{of_begun, of_done, of_show, played, played_buffer};
ghost use Rattle.sheet.specs.Plays.{Blank, PlaysLine};

use crate::events::Event;
use crate::lines::{LENT, LONGEST_LINE, Line};
use book::{Begun, Book, Done};
use conditions::NoRoom;

// What playing an event gives: where its line ends, and the book that the next event takes. Where the
// buffer is too short, nothing was played.
// kept: the book stands beside the Result: document 01 has the next call take it, refused or not (`played`).
#[derive(Clone, Copy)]
pub struct Played {
    pub written: Result<usize, NoRoom>,
    pub book: Book,
}

// The bytes from a place up to another.
// kept: no plainer with a `Reader`: it has one place, and these are two.
fn between(sheet: &[u8], from: usize, to: usize) -> &[u8]
    ensures { result.now ≡ take (to - from) (drop from sheet.now) }
{
    let end = to.min(sheet.len());
    &sheet[from.min(end)..end]
}

// The line of a begin.
fn begun(x: Begun, position: u64, line: &mut Line) -> Played
    requires { Blank line.old }
    ensures { PlaysLine (of_begun x) position line.old result line.new }
{
    let answer = x.answer;
    line.head(position, answer);
    if answer.is_ok() {
        line.field(u64::from(x.number.0));
        line.field(u64::from(x.grant));
    }
    line.byte(b'\n');
    Played {
        written: Ok(line.end),
        book: x.book,
    }
}

// The line of an event that prints nothing after its answer number.
fn done(x: Done, position: u64, line: &mut Line) -> Played
    requires { Blank line.old }
    ensures { PlaysLine (of_done x) position line.old result line.new }
{
    line.plain(position, x.answer);
    Played {
        written: Ok(line.end),
        book: x.book,
    }
}

// Show, and its line: what stands before the line that show writes is put first, as if show were
// accepted. A refused show leaves its bytes as they were, and its own line is longer than that.
fn shown(book: Book, item: u8, position: u64, line: &mut Line) -> Played
    requires { Blank line.old }
    ensures { PlaysLine (of_show places book item) position line.old result line.new }
{
    line.head(position, Ok(()));
    line.byte(b' ');
    let from = line.end;
    match book.show(item, &mut line.buf[from..from + LENT]) {
        Ok(end) => {
            line.end = from + end;
            line.byte(b'\n');
        }
        Err(refusal) => {
            line.end = 0;
            line.plain(position, Err(refusal));
        }
    }
    Played {
        written: Ok(line.end),
        book,
    }
}

// Play, the call: an event of the sheet, at its position, on the book.
#[tactic(auto, unfolding(crate::specs::Play::played, crate::specs::Play::played_buffer, crate::specs::Lines::line_answer, crate::specs::Lines::line_written))]
pub fn play(book: Book, sheet: &[u8], event: Event, position: u64, buf: &mut [u8]) -> Played
    ensures value { result ≡ played places book sheet.now event position buf.old }
    ensures buf_after { buf.new ≡ played_buffer places book sheet.now event position buf.old }
{
    if buf.len() < LONGEST_LINE {
        return Played {
            written: Err(NoRoom),
            book,
        };
    }
    let line = &mut Line { buf, end: 0 };
    match event {
        Event::Begin { from, to } => {
            let steps = between(sheet, from, to);
            begun(book.begin(steps), position, line)
        }
        Event::Ready { number, district } => done(book.ready(number, district), position, line),
        Event::GiveUp { number, district } => done(book.give_up(number, district), position, line),
        Event::Complete { number } => done(book.complete(number), position, line),
        Event::Abort { number } => done(book.abort(number), position, line),
        Event::Hear { number, district } => done(book.hear(number, district), position, line),
        Event::Show { item } => shown(book, item, position, line),
    }
}
