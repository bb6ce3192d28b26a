// Replays the recorded lists of data/, which hold what the original Rust answered (oracle/RECORDED.md), and prints a line for each list.
#![tactic(auto)]

mod answer;
mod case;
mod codec;
mod entries;
mod input;
mod list;
mod number;
mod op;
mod opening;
mod pattern;
mod plan;
mod planning;
mod receiving;
mod reception;
mod run;
mod sending;
mod state;
mod terms;

use std::io;

fn main(rt: HostRuntime) -> io::Result<()> {
    run::replay(&rt, "codec", "codec.rec")?;
    run::replay(&rt, "plan", "plan.rec")?;
    run::replay(&rt, "receiver", "receiver.rec")?;
    run::replay(&rt, "sender", "sender.rec")
}
