//! Benchmarks of the lock table, and of brokers and their lanes.
//!
//! The first argument selects a benchmark, `tables` or `lanes`, which prints times. A second argument
//! selects runs of `lanes`. Without arguments the program makes small runs of both benchmarks and prints
//! deterministic results.
#![tactic(auto)]

mod brokers;
mod tables;

fn main(rt: HostRuntime) -> anyhow::Result<()> {
    let mut words = std::env::args(&rt)?.skip(1);
    let Some(benchmark) = words.next() else {
        tables::check(&rt)?;
        brokers::run(&rt, rt.alloc(), false, None)?;
        return Ok(());
    };
    match benchmark.as_str() {
        "tables" => tables::time(&rt),
        _ => Ok(brokers::run(&rt, rt.alloc(), true, words.next())?),
    }
}
