// Reads a day, and an edition if one is given, and prints the lunar month's start before it.
#![tactic(auto)]

fn main(rt: HostRuntime) {
    let mut stdin = rt.stdin();
    let mut buffer = [0u8; text::TOO_LONG];
    let _ = output::print(lunar_month_sheet::sheet(input::read_bytes(&mut stdin, &mut buffer)));
}
