// Performs a script of road files: each is read and then loaded, and two lines say what came of it.
#![tactic(auto)]

mod loading;
mod reading;
mod script;

use loading::Loading;
use reading::Reading;
use script::Case;
use std::io::{BufRead, BufReader};

// Performs the script that stands on standard input.
fn run(rt: &HostRuntime) -> anyhow::Result<()> {
    let heap = rt.alloc();
    for line in BufReader::new(heap, rt.stdin())?.lines(heap) {
        let case = Case::parse(heap, line?.as_str())?;
        rt.println(Reading::of(case.file.as_slice()))?;
        rt.println(Loading::of(heap, &case)?)?;
    }
    Ok(())
}

fn main(rt: HostRuntime) -> anyhow::Result<()> {
    run(&rt)
}
