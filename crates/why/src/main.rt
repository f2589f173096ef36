// Reads a day and a page from standard input and prints why the day is not in the page's list, or that it fits.
#![tactic(auto)]

ghost use Rattle.std.specs.Prelude.{◌≡◌};
ghost use Rattle.reply.specs.Replies.{printed_for, remarks_for};

// The only way to say how a page was understood. By what it requires the bytes are all that is said of it.
fn say_all(input: &[u8], bytes: &[u8])
    requires { bytes.now ≡ remarks_for input.now }
{
    output::say_bytes(bytes);
}

fn say_remarks(input: &[u8]) {
    let mut buffer = [0u8; remarks::ROOM];
    let bytes = reply::put_remarks(input, &mut buffer);
    say_all(input, &buffer[..bytes]);
}

// The only way to print the reply. By what it requires the bytes are all that is printed for the input.
fn print_all(input: &[u8], bytes: &[u8])
    requires { bytes.now ≡ printed_for input.now }
{
    let _ = output::print_bytes(bytes);
}

fn reply_to(input: &[u8]) {
    let mut buffer = [0u8; explanation::ROOM];
    let reply = reply::to_input(input, &mut buffer);
    let printed = reply.printed;
    let said = reply.said;
    say_remarks(input);
    print_all(input, &buffer[..printed]);
    output::say(said);
}

fn main(rt: HostRuntime) {
    let mut stdin = rt.stdin();
    let mut buffer = [0u8; text::TOO_LONG];
    reply_to(input::read_bytes(&mut stdin, &mut buffer));
}
