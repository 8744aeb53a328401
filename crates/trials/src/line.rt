// The lines of the table.
use std::io;

pub(crate) fn say_reply(rt: &impl Print, refusal: u8) -> io::Result<()> {
    if refusal == 0 {
        return print!(rt; "accepted");
    }
    print!(rt; "refused {refusal}")
}

// The line's end: what came out is what the paper states, or it isn't.
pub(crate) fn close(rt: &impl Print, stated: bool) -> io::Result<()> {
    if stated {
        println!(rt; "   as stated")
    } else {
        println!(rt; "   NOT AS STATED")
    }
}
