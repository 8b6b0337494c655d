// Reads texts on standard input and writes what `read_sheet` answers of each, a line for a text, with a digest of each lent slice afterwards. A
// text follows a header of 18 bytes: the lengths of the tree slice (600 at the most), of the matrix slice (16,400) and of the text (40,000), each
// at the front of 6 bytes. Each slice is filled with one number before the call, so that the digest shows what was written.
#![tactic(auto)]

use bodies::Head;
use cases::{Cases, digest};
use choices::Resolve;
use refusals::Refusal;
use std::io;
use std::io::Read;

// The front of an answer's line: what was read, or the refusal.
fn put_answer(rt: &impl Print, answer: Result<Head, Refusal>) -> io::Result<()> {
    match answer {
        Ok(head) => {
            let resolve = match head.resolve {
                Resolve::Acctran => "acctran",
                Resolve::Deltran => "deltran",
            };
            print!(rt; "read={},{},{resolve}", head.n, head.c)
        }
        Err(refusal) => print!(rt; "refused={refusal}"),
    }
}

// The slices are lent as the header says, and the text is read up to its end.
fn one_text(rt: &impl Print, input: &mut impl Read, header: &[u8; 18]) -> io::Result<()> {
    let tree = &mut [7u16; 600][..Cases::new(&header[0..]).at_most(600)];
    let matrix = &mut [8u16; 16400][..Cases::new(&header[6..]).at_most(16400)];
    let text = &mut [0u8; 40000][..Cases::new(&header[12..]).at_most(40000)];
    inputs::read_full(input, text)?;
    let answer = sheets::read_sheet(text, tree, matrix);
    put_answer(rt, answer)?;
    println!(rt;
        " tree={} matrix={}",
        digest(tree, 1, 0),
        digest(matrix, 1, 0)
    )
}

fn main(rt: HostRuntime) -> io::Result<()> {
    let mut input = rt.stdin();
    for _ in 0..100000 {
        let mut header = [0u8; 18];
        if inputs::read_full(&mut input, &mut header)? != 18 {
            return Ok(());
        }
        one_text(&rt, &mut input, &header)?;
    }
    Ok(())
}
