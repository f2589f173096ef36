// Reads days, a line each, and prints their ISO dates.
#![tactic(auto)]

use date_lines::Kind;

fn main(rt: HostRuntime) {
    let mut stdin = rt.stdin();
    conversion::run(Kind::Days, &mut stdin);
}
