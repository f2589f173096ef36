// The day sheet's program: reads an input and prints its sheet.
#![tactic(auto)]

// A good input has at most seven bytes: the eighth shows a longer one.
fn main(rt: HostRuntime) {
    let mut stdin = rt.stdin();
    let mut buffer = [0u8; 8];
    let _ = output::print(sheet::sheet(input::read_bytes(&mut stdin, &mut buffer)));
}
