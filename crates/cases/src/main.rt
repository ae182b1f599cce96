// The test program: worked examples, the edges of every refusal, piles of layers, and random runs against a plain model.
#![tactic(auto)]

mod edges;
mod model;
mod panels;
mod piles;
mod random;
mod row_list;
mod sample;
mod splices;
mod tally;

use std::io;
use tally::Tally;

fn main(rt: HostRuntime) -> io::Result<()> {
    let mut tally = Tally::default();
    edges::plain_rows(&mut tally);
    tally.close(&rt, "plain row")?;
    piles::piles(&mut tally);
    tally.close(&rt, "piles of layers")?;
    splices::examples(&mut tally);
    tally.close(&rt, "push, splice and cursor")?;
    row_list::examples(&mut tally);
    tally.close(&rt, "row list")?;
    panels::examples(&mut tally);
    tally.close(&rt, "rules, book, panel and line")?;
    random::runs(&rt, &mut tally)?;
    row_list::runs(&rt, &mut tally)?;
    tally.close(&rt, "random runs against the model")
}
