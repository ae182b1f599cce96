// The signalling panel: answers the lines of standard input, or of a file, one by one.
#![tactic(auto)]

mod feed;

use desk::desk::Desk;
use feed::feed;
use links::Row;
use order::keys::{RuleNumber, TrainTag};
use skip_list::list::SkipList;
use std::fs::File;
use std::{env, io};

// How many rows the rules have, and the trains.
const RULES: usize = 256;

const TRAINS: usize = 32;

const HELP: &str = "panel: a signalling panel that answers one line for each line

  panel          answer the lines of standard input
  panel FILE     answer the lines of a file
  panel --help   print this

  A n p first last classes route   add rule n at place p
  D n                              drop rule n
  M n p                            move rule n to place p
  T class m                        train m of a class joins the yard
  S turnout                        send the front train over a turnout
  L                                list the rules in order

An answer is ok and a place, or a train by a rule to a route, or none, or the
rules, or empty, or no with the number and the word of a refusal.";

// A new panel over memory of its own, fed with the whole input.
fn serve<R: io::Read>(rt: &HostRuntime, input: &mut R) -> io::Result<()> {
    let mut numbers = [RuleNumber { value: 0 }; RULES];
    let mut number_rows = [Row::empty(); RULES];
    let mut number_slots = [0u16; 2 * RULES];
    let mut tags = [TrainTag {
        class: 0,
        number: 0,
    }; TRAINS];
    let mut tag_rows = [Row::empty(); TRAINS];
    let mut tag_slots = [0u16; 2 * TRAINS];
    let mut rules = SkipList::new(&mut numbers, &mut number_rows, &mut number_slots);
    let mut yard = SkipList::new(&mut tags, &mut tag_rows, &mut tag_slots);
    let mut desk = Desk::new(&mut rules, &mut yard);
    feed(rt, input, &mut desk)
}

fn serve_file(rt: &HostRuntime, path: &str) -> io::Result<()> {
    match File::open(rt, path) {
        Ok(mut file) => serve(rt, &mut file),
        Err(error) => {
            eprintln!(rt; "panel: {path}: {error}")?;
            Err(error)
        }
    }
}

fn main(rt: HostRuntime) -> io::Result<()> {
    let mut words = env::args(&rt)?;
    let _program = words.next();
    let Some(word) = words.next() else {
        return serve(&rt, &mut rt.stdin());
    };
    if word.as_str() == "--help" {
        return println!(rt; "{HELP}");
    }
    serve_file(&rt, word.as_str())
}
