// Ovenmoth: plays one sheet from standard input, and prints a line for each event.
//
// What is printed is the sheet crate's; this only moves bytes. Lines wait in a buffer until there is
// no room in it for another, so that a line costs no system call. Where the output is closed or
// fails, it stops without a word.
#![tactic(auto)]

ghost use Rattle.std.specs.Prelude.{◌≤◌, length, IfSome};

use book::Answer;
use sheet::{Found, LONGEST_LINE, MOST_BYTES, Opened, event_at, open, play, write_refusal};

// Standard input and standard output, as the system numbers them.
const STDIN: i32 = 0;

const STDOUT: i32 = 1;

// Makes room for a line behind the bytes that wait, and answers where it may stand: nowhere, where
// the output took nothing.
fn room(out: &[u8], waiting: usize) -> Option<usize>
    requires { waiting ≤ length out.now }
    ensures { IfSome result (λ place. place ≤ length out.now) }
{
    if LONGEST_LINE <= out.len() - waiting {
        return Some(waiting);
    }
    io::write_all(STDOUT, &out[..waiting]).then_some(0)
}

// Plays the events of a good sheet.
fn play_all(opened: Opened, sheet: &[u8], out: &mut [u8]) {
    let mut book = opened.book;
    let mut at = opened.first;
    let mut waiting: usize = 0;
    // kept: no plainer than `as`: u64 has no From<usize>, and try_from adds a branch that no sheet reaches.
    for position in 1..=opened.count as u64 {
        let Ok(Found { event, next }) = event_at(sheet, at) else {
            return;
        };
        let Some(place) = room(out, waiting) else {
            return;
        };
        let played = play(book, sheet, event, position, &mut out[place..]);
        let Ok(len) = played.written else {
            return;
        };
        if out.len() - place < len {
            return;
        }
        waiting = place + len;
        book = played.book;
        at = next;
    }
    if io::write_all(STDOUT, &out[..waiting]) {
        io::write_all(STDOUT, b"end\n");
    }
}

// Prints the line of a refused sheet.
fn refuse(answer: Answer, place: usize, out: &mut [u8]) {
    // kept: no plainer than `as`, for the same reason as in `play_all`.
    let Ok(end) = write_refusal(answer, place as u64, out) else {
        return;
    };
    if end <= out.len() {
        io::write_all(STDOUT, &out[..end]);
    }
}

// Prints what there is to print of a sheet.
fn print(sheet: &[u8], out: &mut [u8]) {
    let opened = open(sheet);
    let answer = opened.answer;
    if answer.is_err() {
        refuse(answer, opened.place, out);
        return;
    }
    play_all(opened, sheet, out);
}

fn main() {
    let mut input = [0u8; MOST_BYTES + 1];
    let n = io::read_full(STDIN, &mut input);
    let mut out = [0u8; 2 * LONGEST_LINE];
    print(&input[..n], &mut out);
}
