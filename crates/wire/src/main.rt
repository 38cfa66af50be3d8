// The bench tool of whoever brings up a bus: a request on each line of standard input, and its answer behind it.

#![tactic(auto)]

use requests::{LONGEST, ROOM, answer};
use std::io;
use std::io::{BufRead, BufReader, BufWriter, Write};

// One byte more than is answered, so that a longer line is known.
const MOST: usize = LONGEST + 1;

// Reads a line without its newline, but of one that is too long only as much as shows it. False where the input ends in place of
// the newline; nothing is read behind that end.
fn read_line<R: BufRead>(input: &mut R, line: &mut Vec<u8>) -> io::Result<bool> {
    line.clear();
    // Kept a count, here and below: a loop has to end, and no number tells how much input comes.
    for _ in 0..u64::MAX {
        let ahead = input.fill_buf()?;
        if ahead.is_empty() {
            break;
        }
        let newline = ahead.iter().position(|b| *b == b'\n');
        let end = newline.unwrap_or(ahead.len());
        let kept = end.min(MOST.saturating_sub(line.len()));
        line.extend_from_slice(&ahead[..kept])?;
        input.consume(newline.map_or(end, |at| at + 1));
        if newline.is_some() {
            return Ok(true);
        }
    }
    Ok(false)
}

// Prints a line and its answer.
fn print_answer<W: Write>(output: &mut W, line: &[u8], out: &mut [u8]) -> io::Result<()> {
    if let Ok(size) = answer(line, out) {
        if let Some(text) = out.get(..size) {
            output.write_all(text)?;
            output.write_all(b"\n")?;
        }
    }
    Ok(())
}

fn main(rt: HostRuntime) -> io::Result<()> {
    let mut input = BufReader::new(rt.alloc(), rt.stdin())?;
    let mut output = BufWriter::new(rt.alloc(), rt.stdout())?;
    let mut line = Vec::with_capacity(rt.alloc(), MOST)?;
    let mut out = vec![in rt.alloc(); 0u8; ROOM]?;
    for _ in 0..u64::MAX {
        let goes_on = read_line(&mut input, &mut line)?;
        if goes_on || !line.is_empty() {
            print_answer(&mut output, line.as_slice(), out.as_mut_slice())?;
        }
        if !goes_on {
            break;
        }
    }
    output.flush()
}
