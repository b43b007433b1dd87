// Prints rounded quotients and weights: the paper's figures, the edges of 64 bits, and what lies outside.
#![tactic(auto)]

use std::io;

fn print_quotients(rt: &impl Print) -> io::Result<()> {
    for (a, b) in [
        (-90, 100),
        (-45, 100),
        (50, 100),
        (-50, 100),
        (149, 100),
        (-151, 100),
        (i64::MAX, 2),
        (i64::MIN, 1),
        (7, 0),
    ] {
        println!(rt; "round({a}/{b}) = {}", rounding::round_div(a, b))?;
    }
    Ok(())
}

fn print_weights(rt: &impl Print) -> io::Result<()> {
    for (secondary, primary) in [
        (65_065_800_000, 42_492_400_000),
        (2_000_000_000_000_000, 1),
        (1, 2_000_000_000_000_000),
        (0, 0),
        (2_000_000_000_000_001, 1),
    ] {
        println!(rt;
            "weight({secondary}, {primary}) = {}",
            rounding::weight(secondary, primary)
        )?;
    }
    Ok(())
}

fn print_all(rt: &impl Print) -> io::Result<()> {
    print_quotients(rt)?;
    print_weights(rt)
}

fn main(rt: HostRuntime) {
    if print_all(&rt).is_err() {
        // Where this fails too, nothing is left to say it to.
        let _ = eprintln!(rt; "quotients: not all quotients could be written");
    }
}
