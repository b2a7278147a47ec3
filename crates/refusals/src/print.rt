// What is printed: the answers of all calls on a book, a name before them.
use book::{Answer, Book, answer_number};
use conditions::TransactionNumber;
use std::fmt::{self, Write};

// Standard output, as the kit's io writes it: std's own printing would assume what the system says of an
// error. A write that fails is passed over.
#[derive(Clone, Copy)]
pub(crate) struct Output;

impl fmt::Write for Output {
    // Writes the text.
    fn write_str(&mut self, text: &str) -> fmt::Result {
        io::write_all(1, text.as_bytes());
        Ok(())
    }
}

// The numbers of answers, a space before each.
#[derive(Clone, Copy)]
pub(crate) struct Numbers<const N: usize>(pub(crate) [Answer; N]);

impl<const N: usize> fmt::Display for Numbers<N> {
    // Writes them in their order.
    fn fmt<W: fmt::Write>(&self, f: &mut fmt::Formatter<W>) -> fmt::Result {
        for answer in &self.0 {
            write!(f, " {}", answer_number(*answer))?;
        }
        Ok(())
    }
}

// The answers of the seven calls: begin, ready, give up, complete, abort, hear, show.
pub(crate) fn answers(name: &str, b: Book) -> fmt::Result {
    let mut line = [0u8; 64];
    let all = [
        b.begin(b"\x02\x00\x00\x00").answer,
        b.ready(TransactionNumber(2), 2).answer,
        b.give_up(TransactionNumber(2), 2).answer,
        b.complete(TransactionNumber(2)).answer,
        b.abort(TransactionNumber(2)).answer,
        b.hear(TransactionNumber(1), 1).answer,
        b.show(0, &mut line).map(|_| ()),
    ];
    writeln!(Output, "{name}{}", Numbers(all))
}
