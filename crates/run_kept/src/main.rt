// Reads kept tables on standard input, each with a list of corrections, and writes what the calls of the crates `kept` and `kept_characters` answer and
// what the buffers hold afterwards. Numbers are decimal, and one byte that is no digit follows each. A table is
//     n, c, the lengths of the five slices, the tree and the matrix;
//     0 for a table to be built, or 1 for one that is given: its low ends, its high ends, and its lengths, each as 65536ths and the rest;
//     the number of corrections, and of each its taxon, character and state, and the lengths of the two slices that receive final ranges.
// After a correction the table is built afresh beside it, and the tree length and the same character are asked of it. Buffers are written as
// digests, and a table of at most 40 entries in full at the end. A slice has 2500 entries at the most. Before a table is built its entries are 11,
// 13 and 17; slices that receive final ranges hold 60000 in each entry.
#![tactic(auto)]

use cases::{Cases, List, digest};
use refusals::Refusal;
use std::io;

// What a table is kept of. Each list has a lifetime of its own: with one for both, the borrow checker does not cover `correct`.
#[derive(Drop)]
struct Data<'t, 'm> {
    n: usize,
    c: usize,
    tree: &'t [u16],
    matrix: &'m mut [u16],
}

// The slices of a table.
#[derive(Drop)]
struct Table<'a> {
    lows: &'a mut [u16],
    highs: &'a mut [u16],
    lengths: &'a mut [u32],
}

// What a call answered: a number, after its name, or a refusal.
fn put_number(rt: &impl Print, name: &str, answer: Result<u32, Refusal>) -> io::Result<()> {
    match answer {
        Ok(number) => print!(rt; "{name}={number}"),
        Err(refusal) => print!(rt; "refused={refusal}"),
    }
}

impl Table<'_> {
    // What building it answers, and the digests.
    fn build(&mut self, rt: &impl Print, data: &Data<'_, '_>) -> io::Result<()> {
        match kept::build(
            data.n,
            data.c,
            data.tree,
            data.matrix,
            self.lows,
            self.highs,
            self.lengths,
        ) {
            Ok(()) => print!(rt; "built")?,
            Err(refusal) => print!(rt; "refused={refusal}")?,
        }
        self.put_digests(rt)
    }

    // The low ends, the high ends and the lengths, as they are given.
    fn read(&mut self, cases: &mut Cases<'_>) {
        cases.fill(self.lows);
        cases.fill(self.highs);
        for length in self.lengths.iter_mut() {
            let above = u32::from(cases.number());
            *length = above * 65536 + u32::from(cases.number());
        }
    }

    fn put_digests(&self, rt: &impl Print) -> io::Result<()> {
        print!(rt;
            " lows={} highs={} lengths={}",
            digest(self.lows, 0, 1),
            digest(self.highs, 0, 1),
            digest(self.lengths, 0, 1)
        )
    }

    // In full, if there are at most 40 entries.
    fn put_entries(&self, rt: &impl Print) -> io::Result<()> {
        if self.lows.len() <= 40 {
            println!(rt;
                "lows{}\nhighs{}\nlengths{}",
                List(self.lows),
                List(self.highs),
                List(self.lengths)
            )?;
        }
        Ok(())
    }

    // A table of the same lengths, built beside this one.
    fn build_afresh(&self, rt: &impl Print, data: &Data<'_, '_>) -> io::Result<()> {
        let lows = &mut [0u16; 2500][..self.lows.len().min(2500)];
        let highs = &mut [0u16; 2500][..self.highs.len().min(2500)];
        let lengths = &mut [0u32; 2500][..self.lengths.len().min(2500)];
        let mut fresh = Table {
            lows,
            highs,
            lengths,
        };
        print!(rt; "\n  fresh ")?;
        fresh.build(rt, data)
    }

    // The tree's length, and a character's with its final ranges.
    fn ask(
        &self,
        rt: &impl Print,
        data: &Data<'_, '_>,
        character: usize,
        final_lows: &mut [u16],
        final_highs: &mut [u16],
    ) -> io::Result<()> {
        let length = kept::kept_length(
            data.n,
            data.c,
            data.tree,
            data.matrix,
            self.lows,
            self.highs,
            self.lengths,
        );
        print!(rt; "\n  tree ")?;
        put_number(rt, "length", length)?;
        let length = kept_characters::kept_character(
            data.n,
            data.c,
            character,
            data.tree,
            data.matrix,
            self.lows,
            self.highs,
            self.lengths,
            final_lows,
            final_highs,
        );
        print!(rt; "\n  character ")?;
        put_number(rt, "length", length)?;
        println!(rt;
            " final lows={} final highs={}",
            digest(final_lows, 0, 1),
            digest(final_highs, 0, 1)
        )
    }

    // One correction, and what is asked afterwards.
    fn correct(
        &mut self,
        rt: &impl Print,
        data: &mut Data<'_, '_>,
        cases: &mut Cases<'_>,
    ) -> io::Result<()> {
        let taxon = usize::from(cases.number());
        let character = usize::from(cases.number());
        let state = cases.number();
        let final_lows = &mut [60000u16; 2500][..cases.at_most(2500)];
        let final_highs = &mut [60000u16; 2500][..cases.at_most(2500)];
        let count = kept::correct(
            data.n,
            data.c,
            taxon,
            character,
            state,
            data.tree,
            data.matrix,
            self.lows,
            self.highs,
            self.lengths,
        );
        put_number(rt, "rewritten", count)?;
        print!(rt; " matrix={}", digest(data.matrix, 0, 1))?;
        self.put_digests(rt)?;
        self.build_afresh(rt, data)?;
        self.ask(rt, data, character, final_lows, final_highs)
    }
}

fn one_case(rt: &impl Print, cases: &mut Cases<'_>) -> io::Result<()> {
    let n = usize::from(cases.number());
    let c = usize::from(cases.number());
    let tree = &mut [0u16; 2500][..cases.at_most(2500)];
    let matrix = &mut [0u16; 2500][..cases.at_most(2500)];
    let lows = &mut [11u16; 2500][..cases.at_most(2500)];
    let highs = &mut [13u16; 2500][..cases.at_most(2500)];
    let lengths = &mut [17u32; 2500][..cases.at_most(2500)];
    cases.fill(tree);
    cases.fill(matrix);
    let mut data = Data { n, c, tree, matrix };
    let mut table = Table {
        lows,
        highs,
        lengths,
    };
    if cases.number() == 0 {
        table.build(rt, &data)?;
        println!(rt)?;
    } else {
        table.read(cases);
    }
    for _ in 0..cases.number() {
        table.correct(rt, &mut data, cases)?;
    }
    table.put_entries(rt)
}

fn main(rt: HostRuntime) -> io::Result<()> {
    let mut text = [0u8; 65536];
    let length = inputs::read_full(&mut rt.stdin(), &mut text)?;
    let mut cases = Cases::new(&text[..length]);
    // Each case takes a byte or more. A `while` would be no plainer: that it ends would have to be said by a clause of each function here.
    for _ in 0..length {
        if cases.are_read() {
            break;
        }
        one_case(&rt, &mut cases)?;
    }
    Ok(())
}
