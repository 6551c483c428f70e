// A session over standard input and standard output: all that a read brought is answered before the next read waits, and the answers go
// out in blocks. No contract can say what is read or written; what is answered to what is `lent::session`'s.
#![tactic(auto)]

use lent::session;
use lent::session::Session;
use std::io;
use std::io::Read;

// The most that is read at once, and room for the answers to it.
const PIECE_OCTETS: usize = 16384;

const ANSWERS_OCTETS: usize = PIECE_OCTETS * lines::ANSWER_ROOM;

// Reads once, and writes what is answered to it. Gives the session after it, or none once the input has ended. The buffer has room for an answer for
// each octet of the piece, so that the session takes it.
fn answer_some(
    rt: &impl Print,
    input: &mut impl Read,
    s: Session,
    piece: &mut [u8],
    out: &mut [u8],
) -> io::Result<Option<Session>> {
    let n = match input.read(piece) {
        Ok(n) => n,
        Err(e) => {
            answer_last(rt, s)?;
            return Err(e);
        }
    };
    if n == 0 {
        return Ok(None);
    }
    let Ok(fed) = session::feed(s, &piece[..n], out) else {
        return Ok(Some(s));
    };
    rt.write_all(&out[..fed.written.min(out.len())])?;
    Ok(Some(fed.session))
}

// Answers a last line that lacks its feed.
fn answer_last(rt: &impl Print, s: Session) -> io::Result<()> {
    let mut out = [0u8; lines::ANSWER_ROOM];
    let written = session::finish(s, &mut out);
    rt.write_all(&out[..written.min(out.len())])
}

// Answers standard input to its end, from the empty table. A failed read counts as the end, and a failed write ends it at once; either error comes
// back. A proved loop has to end, and nothing says that the input does: the turns are numbers of which no run uses up the last.
pub fn answer_all(rt: &(impl Input + Print)) -> io::Result<()> {
    let mut s = Session::start();
    let mut piece = [0u8; PIECE_OCTETS];
    let mut out = [0u8; ANSWERS_OCTETS];
    let mut input = rt.reader();
    for _ in 0..u64::MAX {
        let Some(next) = answer_some(rt, &mut input, s, &mut piece, &mut out)? else {
            return answer_last(rt, s);
        };
        s = next;
    }
    Ok(())
}
