// 16: the text buffer is shorter than the line. It is left as it was.
use crate::print::{Numbers, Output};
use book::Book;
use std::fmt::{self, Write};

// Shows item 0 into these bytes, and prints what has become of them.
fn shown(b: Book, buf: &mut [u8]) -> fmt::Result {
    let answer = b.show(0, buf).map(|_| ());
    let text = str::from_utf8(buf).unwrap_or("no text");
    writeln!(Output, "buffer {}{} {text}", buf.len(), Numbers([answer]))
}

// The line of item 0 has 12 bytes.
pub(crate) fn buffers(b: Book) -> fmt::Result {
    shown(b, &mut [b'.'; 1])?;
    shown(b, &mut [b'.'; 11])?;
    shown(b, &mut [b'.'; 12])?;
    shown(b, &mut [b'.'; 16])
}
