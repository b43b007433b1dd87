// The journal program: reads a journal from standard input and prints a line for each of its records.
#![tactic(auto)]

fn main(rt: HostRuntime) {
    let mut bytes = console::input_buffer();
    let mut text = console::output_buffer();
    console::run(
        b"neapscroll",
        &mut rt.stdin(),
        &mut rt.stdout(),
        &mut rt.stderr(),
        &mut bytes,
        &mut text,
    );
}
