// For each kind how many answers were equal, how many differ, and where the first record that differs stands.
use crate::list::{KINDS, Kind};
use std::io;

#[derive(Clone, Copy, Default)]
pub struct Count {
    pub equal: usize,
    pub differ: usize,
    pub first: Option<usize>,
}

// The kinds of questions, in the order of a report; a file is none.
const QUESTIONS: [Kind; 13] = [
    Kind::Open,
    Kind::Get,
    Kind::GetTable,
    Kind::NextKey,
    Kind::NextValue,
    Kind::Hash,
    Kind::FirstBad,
    Kind::Fresh,
    Kind::NewTable,
    Kind::Insert,
    Kind::InsertTable,
    Kind::ItemCount,
    Kind::Write,
];

impl Count {
    // Counts an answer to the record at an offset, and keeps the offset of the first that differs.
    pub fn add(&mut self, same: bool, at: usize) {
        if same {
            self.equal = self.equal.wrapping_add(1);
        } else {
            self.differ = self.differ.wrapping_add(1);
            self.first = self.first.or(Some(at));
        }
    }
}

fn line(rt: &impl Print, kind: Kind, count: Count) -> io::Result<()> {
    print!(rt; "{kind} {} equal, {} differ", count.equal, count.differ)?;
    if let Some(at) = count.first {
        print!(rt; ", the first at {at}")?;
    }
    println!(rt;)
}

// A line for each kind of question that was asked.
pub fn report(rt: &impl Print, counts: &[Count; KINDS]) -> io::Result<()> {
    for kind in QUESTIONS {
        let count = counts[kind as usize];
        if (count.equal != 0) | (count.differ != 0) {
            line(rt, kind, count)?;
        }
    }
    Ok(())
}
