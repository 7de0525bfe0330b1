// Replays fixed lists of questions with gvdb-rs's answers (data/oracle-*.list, made by tests/replay-list) and says for each kind of question how many answers are
// equal. Then lists that show that it can say otherwise: one with wrong answers, one cut short, one with an unknown kind. What it writes is held to the file stdout.
#![tactic(auto)]

use std::io;

mod building;
mod list;
mod reading;
mod tally;
mod walk;

fn main(rt: HostRuntime) -> io::Result<()> {
    for name in [
        "oracle-1.list",
        "oracle-2.list",
        "wrong.list",
        "cut.list",
        "unknown.list",
    ] {
        walk::replay(&rt, name)?;
    }
    Ok(())
}
