// Reads cases on standard input, makes both calls of the crate `characters` of each, and writes what they answer and what the slices hold
// afterwards. A case is n, c, the character, 0 for ACCTRAN or 1 for DELTRAN, the lengths of the eight slices of `one_character`, the tree and the
// matrix. Numbers are decimal, and one byte that is no digit follows each. A slice has 5000 entries at the most. Those that receive hold 60000, or
// 4000000000, in each entry before the call.
#![tactic(auto)]

use cases::{Cases, List};
use choices::Resolve;
use indices::Fraction;
use refusals::Refusal;
use scores::Scores;
use std::fmt::Display;
use std::{fmt, io};

// An index, printed as a fraction.
#[derive(Clone, Copy)]
struct Index(Option<Fraction>);

impl Display for Index {
    fn fmt<W: fmt::Write>(&self, f: &mut fmt::Formatter<W>) -> fmt::Result {
        match self.0 {
            Some(index) => write!(f, "{}/{}", index.over, index.under),
            None => write!(f, "none"),
        }
    }
}

// The line of an answer: the scores, or the refusal.
fn put_answer(rt: &impl Print, name: &str, answer: Result<Scores, Refusal>) -> io::Result<()> {
    match answer {
        Ok(scores) => println!(rt;
            "{name} length={} m={} g={} ci={} ri={}",
            scores.length,
            scores.m,
            scores.g,
            Index(scores.ci),
            Index(scores.ri)
        ),
        Err(refusal) => println!(rt; "{name} refused={refusal}"),
    }
}

fn one_case(rt: &impl Print, cases: &mut Cases<'_>) -> io::Result<()> {
    let n = usize::from(cases.number());
    let c = usize::from(cases.number());
    let character = usize::from(cases.number());
    let resolve = match cases.number() {
        0 => Resolve::Acctran,
        _ => Resolve::Deltran,
    };
    let tree = &mut [0u16; 5000][..cases.at_most(5000)];
    let matrix = &mut [0u16; 5000][..cases.at_most(5000)];
    let first_lows = &mut [60000u16; 5000][..cases.at_most(5000)];
    let first_highs = &mut [60000u16; 5000][..cases.at_most(5000)];
    let subtree = &mut [4000000000u32; 5000][..cases.at_most(5000)];
    let final_lows = &mut [60000u16; 5000][..cases.at_most(5000)];
    let final_highs = &mut [60000u16; 5000][..cases.at_most(5000)];
    let states = &mut [60000u16; 5000][..cases.at_most(5000)];
    cases.fill(tree);
    cases.fill(matrix);
    let one = characters::one_character(
        n,
        c,
        character,
        resolve,
        tree,
        matrix,
        first_lows,
        first_highs,
        subtree,
        final_lows,
        final_highs,
        states,
    );
    put_answer(rt, "one", one)?;
    println!(rt;
        "first lows{}\nfirst highs{}\nsubtree lengths{}",
        List(first_lows),
        List(first_highs),
        List(subtree)
    )?;
    println!(rt;
        "final lows{}\nfinal highs{}\nstates{}",
        List(final_lows),
        List(final_highs),
        List(states)
    )?;
    put_answer(rt, "all", characters::all_characters(n, c, tree, matrix))
}

fn main(rt: HostRuntime) -> io::Result<()> {
    let mut text = [0u8; 262144];
    let length = inputs::read_full(&mut rt.stdin(), &mut text)?;
    let mut cases = Cases::new(&text[..length]);
    // Each case takes a byte or more. A `while` would be no plainer: that it ends would have to be said by a clause of each function here.
    for _ in 0..length {
        if cases.are_read() {
            break;
        }
        one_case(&rt, &mut cases)?;
    }
    Ok(())
}
