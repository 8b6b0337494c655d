// Reads tree tables on standard input and writes what `accept_tree` answers of each, a line for a table. A table is its n, its number of entries
// (600 at the most) and the entries; one byte that is no digit follows each number.
#![tactic(auto)]

use cases::Cases;
use std::io;

fn answer(rt: &impl Print, n: usize, tree: &[u16]) -> io::Result<()> {
    match trees::accept_tree(n, tree) {
        Ok(rooted) => println!(rt; "root={},{}", rooted.root, rooted.top),
        Err(refusal) => println!(rt; "refused={refusal}"),
    }
}

fn one_table(rt: &impl Print, cases: &mut Cases<'_>) -> io::Result<()> {
    let n = usize::from(cases.number());
    let tree = &mut [0u16; 600][..cases.at_most(600)];
    cases.fill(tree);
    answer(rt, n, tree)
}

fn main(rt: HostRuntime) -> io::Result<()> {
    let mut text = [0u8; 65536];
    let length = inputs::read_full(&mut rt.stdin(), &mut text)?;
    let mut cases = Cases::new(&text[..length]);
    // Each case takes a byte or more. A `while` would be no plainer: that it ends would have to be said by a clause of each function here.
    for _ in 0..length {
        if cases.are_read() {
            break;
        }
        one_table(&rt, &mut cases)?;
    }
    Ok(())
}
