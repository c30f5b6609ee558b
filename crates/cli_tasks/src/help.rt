//! The text of `help`.
use clap::Command;
use std::alloc::{AllocError, Global};

/// The words of each task.
const USAGE: &str = "roadesk script --charter FILE\n       \
    roadesk init --db FILE --charter FILE\n       \
    roadesk serve --db FILE --listen ADDR --count N --day D\n       \
    roadesk check PAYLOADS ROUTES\n       \
    roadesk help";

/// The name of each task, and what it does.
const TASKS: [(&str, &str); 5] = [
    (
        "script",
        "Answer JSON lines of standard input on a new desk in memory",
    ),
    ("init", "Make a database with a charter"),
    (
        "serve",
        "Answer HTTP requests on a database, one for each of N connections",
    ),
    ("check", "Judge the routes of a file on the VRPs of another"),
    ("help", "Print this text"),
];

/// The text that names the tasks and their words.
pub fn help_text(alloc: Global) -> Result<String, AllocError> {
    let mut command = Command::new(alloc, "roadesk")
        .about("A desk for route origin authorizations")
        .override_usage(USAGE)
        .disable_help_flag(true)
        .disable_help_subcommand(true);
    for (name, about) in TASKS {
        command = command.subcommand(Command::new(alloc, name).about(about))?;
    }
    command.render_help()
}
