// Prints the factor sheet of each accepted settlement of an electric journal: it reads the journal from standard input, as the journal
// program does.
#![tactic(auto)]

mod printing;

use printing::Printing;

fn main(rt: HostRuntime) {
    let mut bytes = console::input_buffer();
    let (count, read) = console::read_input(&mut rt.stdin(), &mut bytes);
    let printed = Printing::new(rt.stdout()).print(&bytes[..count]);
    // Where these fail too, nothing is left to say it to.
    if read.is_err() {
        let _ = eprintln!(&rt; "sheets: the input could not be read to its end");
    }
    if printed.is_err() {
        let _ = eprintln!(&rt; "sheets: not all sheets could be written");
    }
}
