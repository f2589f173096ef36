// Reads ISO dates, a line each, and prints their days.
#![tactic(auto)]

use date_lines::Kind;

fn main(rt: HostRuntime) {
    let mut stdin = rt.stdin();
    conversion::run(Kind::Dates, &mut stdin);
}
