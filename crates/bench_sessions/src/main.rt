//! Sessions that users wait for, as `morphd batch` serves them over tiles of 128, on scripts that lie in memory.
//!
//!     out/bench_sessions JOB SEED      one job on pictures of that seed: ground, sizes, medians, masks, defects or night
//!     out/bench_sessions sample SEED   all of them, on pictures of a few thousand pixels
//!
//! It prints of each job how many bytes of replies there were and a digest of them, and no times: `bench/run` takes these.
#![tactic(auto)]

mod chance;
mod digest;
mod elements;
mod fault;
mod grains;
mod jobs;
mod script;

use chance::Chance;
use digest::Digest;
use fault::Fault;
use jobs::{Extent, JOBS, Job};
use mw_batch::{Crew, batch};
use mw_wire::{Sink, Source};
use std::alloc::Global;
use std::io::Read;
use std::thread::Threads;
use std::{env, io};

/// The side of tiles that users get.
const SIDE: u32 = 128;

/// Gives the bytes, as many as a read has room for.
#[derive(Drop)]
struct Bytes<'a> {
    left: &'a [u8],
}

impl Read for Bytes<'_> {
    fn read(&mut self, buf: &mut [u8]) -> io::Result<usize> {
        let n = self.left.len().min(buf.len());
        let (front, rest) = self.left.split_at(n);
        buf[..n].copy_from_slice(front);
        self.left = rest;
        Ok(n)
    }
}

/// The replies to a script.
fn replies<T: Threads + Sync>(crew: Crew<T>, script: &[u8]) -> Result<Digest, Fault> {
    let mut source = Source::new(Bytes { left: script });
    let mut sink = Sink::new(Digest::new());
    let mut faults = Sink::new(Vec::new(crew.alloc));
    if batch(crew, &mut source, &mut sink, &mut faults, SIDE) != 0 {
        return Err(Fault::Session);
    }
    Ok(sink.into_inner())
}

/// Runs a job and prints what came of each of its sessions.
fn run<R: Threads + Print + Sync>(
    rt: &R,
    alloc: Global,
    job: Job,
    chance: Chance,
    extent: Extent,
) -> Result<(), Fault> {
    let crew = Crew {
        alloc,
        rt,
        workers: job.workers(),
    };
    for session in 0..job.sessions() {
        let script = job.script(alloc, chance.part(session), extent)?;
        let digest = replies(crew, script.bytes.as_slice())?;
        println!(rt;
            "{}: {} bytes of replies, digest {:x}",
            job.name(),
            digest.count,
            digest.value
        )?;
    }
    Ok(())
}

fn run_named<R: Threads + Print + Sync>(
    rt: &R,
    alloc: Global,
    name: &str,
    seed: u32,
) -> Result<(), Fault> {
    let chance = Chance::new(seed);
    for job in JOBS {
        if name == "sample" {
            run(rt, alloc, job, chance, Extent::Sample)?;
        }
        if name == job.name() {
            run(rt, alloc, job, chance, Extent::Whole)?;
        }
    }
    Ok(())
}

fn main(rt: HostRuntime) -> Result<(), Fault> {
    let mut words = env::args(&rt)?;
    let name = words.nth(1).ok_or(Fault::Words)?;
    let seed = words.next().ok_or(Fault::Words)?;
    let Ok(seed) = seed.as_str().parse::<u32>() else {
        return Err(Fault::Words);
    };
    run_named(&rt, rt.alloc(), name.as_str(), seed)
}
