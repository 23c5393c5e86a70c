// Hands the faces of a mould from planner to probe, and prints what was carried out.
#![tactic(auto)]

use anyhow::{Context, ensure};
use mould::exchange::carry_out;
use mould::plan::{MOST_FACES, face_count, first_faces};
use mould::report::Totals;
use std::env;
use std::process::ExitCode;

const FACES_UNLESS_TOLD: u32 = 8;

// How many faces the command line asks for.
fn wanted(rt: &HostRuntime) -> anyhow::Result<u32> {
    let mut args = env::args(rt)?.skip(1);
    let Some(text) = args.next() else {
        return Ok(FACES_UNLESS_TOLD);
    };
    ensure!(
        args.next().is_none(),
        "the number of faces is the only argument"
    );
    face_count(&text).context(format_args!(
        "the number of faces is 0 to {MOST_FACES}, not '{text}'"
    ))
}

fn run(rt: &HostRuntime) -> anyhow::Result<()> {
    let count = wanted(rt)?;
    let faces = first_faces(rt.alloc(), count)?;
    let handed = carry_out(rt.alloc(), &faces)?;
    for one in &handed {
        println!(rt; "{one}")?;
    }
    println!(rt; "{}", Totals::of(&faces, &handed))?;
    Ok(())
}

// What ended a run early is told once, on standard error.
fn main(rt: HostRuntime) -> ExitCode {
    match run(&rt) {
        Ok(()) => ExitCode::SUCCESS,
        Err(fault) => {
            let _ = eprintln!(rt; "handover: {fault}");
            ExitCode::FAILURE
        }
    }
}
