// Runs the journal program on each file that its arguments name, and prints the file's name before what it prints.
#![tactic(auto)]

use std::fs::File;
use std::{env, io};

fn print_name(rt: &(impl Print + Eprint), name: &str) {
    if println!(rt; "== {name}").is_err() {
        // Where this fails too, nothing is left to say it to.
        let _ = eprintln!(rt; "journals: not all names could be written");
    }
}

fn run_file(rt: &HostRuntime, name: &str) {
    match File::open(rt, name) {
        Ok(mut file) => {
            print_name(rt, name);
            let mut bytes = console::input_buffer();
            let mut text = console::output_buffer();
            console::run(
                b"journals",
                &mut file,
                &mut rt.stdout(),
                &mut rt.stderr(),
                &mut bytes,
                &mut text,
            );
        }
        Err(error) => {
            let _ = eprintln!(rt; "{name}: {error}");
        }
    }
}

fn main(rt: HostRuntime) -> io::Result<()> {
    // At most 63 files, as many as a call of the program has always read.
    for name in env::args(&rt)?.skip(1).take(63) {
        run_file(&rt, name.as_str());
    }
    Ok(())
}
