//! The words after the program's name.
ghost use Rattle.std.specs.Prelude.{◌≡◌, map};
ghost use Rattle.cli_texts.specs.Words.{AreReadAs, count_in, serve_words};

use addr::{Day, number_from_text};
use thiserror::Error;

/// The most connections that `serve` takes before it ends.
const CONNECTION_LIMIT: u64 = 1_000_000;

/// What the program is to do. Files and addresses are named by any texts.
#[derive(Clone, Copy, Debug, PartialEq, Eq)]
pub enum Task<'a> {
    /// `script --charter FILE`: answer the lines of standard input.
    Script {
        charter: &'a str,
    },
    /// `init --db FILE --charter FILE`: make the database.
    Init {
        database: &'a str,
        charter: &'a str,
    },
    /// `serve --db FILE --listen ADDR --count N --day D`: answer N connections on a day.
    Serve {
        database: &'a str,
        address: &'a str,
        count: u32,
        day: Day,
    },
    /// `check PAYLOADS ROUTES`: judge the routes of a file on the VRPs of another.
    Check {
        payloads: &'a str,
        routes: &'a str,
    },
    /// `help`: print the words of the tasks.
    Help,
}

/// Why words name no task.
#[derive(Clone, Copy, Debug, PartialEq, Eq, Error)]
pub enum WordsFault {
    /// They are not exactly the words of one task, in its order.
    #[error("the words are not those of a task")]
    Words,
    /// They would be those of `serve` if the text of its day were one.
    #[error("the day is not one")]
    Day,
}

impl WordsFault {
    ghost use Rattle.cli_texts.specs.WordsFault.{words_fault_number};

    pub fn number(self) -> u8
        ensures { result ≡ words_fault_number self }
    {
        match self {
            WordsFault::Words => 1,
            WordsFault::Day => 2,
        }
    }
}

/// Reads the words after the program's name. It takes no memory.
pub fn read_words<'a>(words: &[&'a str]) -> Result<Task<'a>, WordsFault>
    ensures { AreReadAs (map (λ word. word.now) words.now) result }
{
    match words {
        ["script", "--charter", charter] => Ok(Task::Script { charter }),
        ["init", "--db", database, "--charter", charter] => Ok(Task::Init { database, charter }),
        [
            "serve",
            "--db",
            database,
            "--listen",
            address,
            "--count",
            count,
            "--day",
            day,
        ] => read_serve(database, address, count, day),
        ["check", payloads, routes] => Ok(Task::Check { payloads, routes }),
        ["help"] => Ok(Task::Help),
        _ => Err(WordsFault::Words),
    }
}

fn read_serve<'a>(
    database: &'a str,
    address: &'a str,
    count: &str,
    day: &str,
) -> Result<Task<'a>, WordsFault>
    ensures { AreReadAs (serve_words database.now address.now count.now day.now) result }
{
    let Some(count) = read_count(count) else {
        return Err(WordsFault::Words);
    };
    let Some(day) = Day::read(day.as_bytes()) else {
        return Err(WordsFault::Day);
    };
    Ok(Task::Serve {
        database,
        address,
        count,
        day,
    })
}

fn read_count(text: &str) -> Option<u32>
    ensures { result ≡ count_in text.now }
{
    match number_from_text(text.as_bytes()) {
        Some(number) if 1 <= number && number <= CONNECTION_LIMIT => Some(number as u32),
        _ => None,
    }
}
