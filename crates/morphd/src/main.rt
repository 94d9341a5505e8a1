// Runs a script of morphology from standard input to standard output, or serves sessions over TCP, on one table of names
// or each on its own.
#![tactic(auto)]

use mw_cli::{Job, LineFault, options, processors, words};
use mw_cli_program::perform;
use mw_wire::{Sink, Source, send};
use std::io::{BufWriter, IsTerminal, Write};
use std::process::ExitCode;

/// How many bytes of replies may wait for those behind them, so that they go out in one write.
const HELD: usize = 65536;

/// What is told of a batch at a terminal.
const GREETING: &[u8] = b"morphd batch: reads a session from this terminal, up to QUIT or Ctrl-D\n";

/// Prints why the words ask for no job, and gives the exit status.
fn print_fault(rt: &HostRuntime, fault: &LineFault) -> u8 {
    match fault.print(rt) {
        Ok(()) => fault.status(),
        Err(_) => {
            let _ = eprintln!(rt; "error: output");
            1
        }
    }
}

/// Tells who started a batch at a terminal that it waits for a session.
fn greet<W: Write>(rt: &HostRuntime, job: &Job, faults: &mut Sink<W>) {
    if matches!(job, Job::Batch(_)) && rt.stdin().is_terminal() {
        let _told = send(faults, GREETING);
    }
}

#[tactic(auto, using(crate::proofs::Asked::asked_is_possible))]
fn main(rt: HostRuntime) -> ExitCode {
    let alloc = rt.alloc();
    let mut source = Source::new(rt.stdin());
    let mut faults = Sink::new(rt.stderr());
    let Ok(writer) = BufWriter::with_capacity(alloc, HELD, rt.stdout()) else {
        let _told = send(&mut faults, b"error: memory\n");
        return ExitCode::from(1);
    };
    let job = match words(&rt) {
        Ok(words) => options(alloc, words.as_slice(), processors(&rt)),
        Err(fault) => Err(fault),
    };
    let status = match job {
        Ok(job) => {
            greet(&rt, &job, &mut faults);
            perform(
                &rt,
                alloc,
                &job,
                &mut source,
                &mut Sink::new(writer),
                &mut faults,
            )
        }
        Err(fault) => print_fault(&rt, &fault),
    };
    ExitCode::from(status)
}
