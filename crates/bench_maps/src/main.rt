//! The program: objects of some sizes are made, looked up in, copied, compared and emptied, and how many members each
//! call answered for is printed.
//!
//! Without words it does all calls at four sizes. With two words, a call and a count of members, it does that call alone,
//! so that the instructions of two runs can be subtracted.
#![tactic(auto)]

mod call;
mod work;

use anyhow::{Context, bail};
use call::Call;
use std::alloc::Global;
use std::env;
use work::answered;

const SIZES: [usize; 4] = [4, 16, 100, 100_000];

fn main(rt: HostRuntime) -> anyhow::Result<()> {
    let words: Vec<String> = env::args(&rt)?.skip(1).collect(rt.alloc())?;
    match words.as_slice() {
        [] => all(&rt, rt.alloc()),
        [call, members] => {
            let call = Call::named(call.as_str()).context("there is no such call")?;
            println!(rt; "{}", answered(rt.alloc(), call, members.parse()?)?)?;
            Ok(())
        }
        _ => bail!("usage: bench_maps [CALL MEMBERS]"),
    }
}

fn all(rt: &impl Print, alloc: Global) -> anyhow::Result<()> {
    for members in SIZES {
        for call in Call::ALL {
            let count = answered(alloc, call, members)?;
            println!(rt; "{} {members}: {count}", call.name())?;
        }
    }
    Ok(())
}
