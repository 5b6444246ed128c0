// The program's commands, and which of them its arguments name.
ghost use Rattle.std.specs.Prelude.{◌≡◌, true, false, IfSome};
ghost use Rattle.cm_cli.specs.Commands as spec;

use cm_base::words::number_in;

/// A command of the program.
#[derive(Clone, Copy, Debug, PartialEq, Eq)]
pub enum Command {
    /// Tests commands.
    Test,
    /// Lists the conversions of commands.
    Expand,
    /// Plays a session of instructions, without commands.
    Insn,
    /// Replays a session in board time.
    Replay,
    /// Runs the lines of a job beside each other, each with a client of its own.
    Run,
    /// Runs the lines of a job beside each other, with one client for all.
    Watch,
    /// Filters an input into an output.
    Loop,
    /// Streams so many samples through four rings at once, and reads no input.
    Soak(u32),
}

impl Command {
    /// Whether it runs threads.
    pub fn has_threads(self) -> bool
        ensures { result ≡ spec.has_threads self }
    {
        match self {
            Command::Run | Command::Watch | Command::Loop | Command::Soak(_) => true,
            _ => false,
        }
    }
}

/// The command that these arguments name, if they name one.
pub fn call_of(words: &[String]) -> Option<Command>
    ensures value { result ≡ spec.call_of words.now }
    ensures sound { IfSome result spec.IsSound }
{
    match words {
        [word, rest @ ..] => named(word.as_str().as_bytes(), rest),
        _ => None,
    }
}

/// The command without threads that these arguments name, if they name one.
pub fn task_of(words: &[String]) -> Option<Command>
    ensures value { result ≡ spec.task_of words.now }
    ensures plain { IfSome result (λ command. spec.has_threads command ≡ false) }
{
    match call_of(words) {
        None => None,
        Some(command) => without_threads(command),
    }
}

fn without_threads(command: Command) -> Option<Command>
    ensures value { result ≡ spec.without_threads command }
    ensures plain { IfSome result (λ command. spec.has_threads command ≡ false) }
{
    if command.has_threads() {
        None
    } else {
        Some(command)
    }
}

// The table of commands: the word of each, and what it takes after it.
fn named(word: &[u8], rest: &[String]) -> Option<Command>
    ensures value { result ≡ spec.named word.now rest.now }
    ensures sound { IfSome result spec.IsSound }
{
    if word == b"test".as_slice() {
        alone(Command::Test, rest)
    } else if word == b"expand".as_slice() {
        alone(Command::Expand, rest)
    } else if word == b"insn".as_slice() {
        alone(Command::Insn, rest)
    } else if word == b"replay".as_slice() {
        alone(Command::Replay, rest)
    } else if word == b"run".as_slice() {
        alone(Command::Run, rest)
    } else if word == b"watch".as_slice() {
        alone(Command::Watch, rest)
    } else if word == b"loop".as_slice() {
        alone(Command::Loop, rest)
    } else if word == b"soak".as_slice() {
        counted(rest)
    } else {
        None
    }
}

// A command that has nothing after its word.
fn alone(command: Command, rest: &[String]) -> Option<Command>
    requires { spec.IsSound command }
    ensures value { result ≡ spec.alone command rest.now }
    ensures sound { IfSome result spec.IsSound }
{
    match rest {
        [] => Some(command),
        _ => None,
    }
}

// A soak has its number of samples after its word.
fn counted(rest: &[String]) -> Option<Command>
    ensures value { result ≡ spec.counted rest.now }
    ensures sound { IfSome result spec.IsSound }
{
    match rest {
        [count] => soak_of(count.as_str().as_bytes()),
        _ => None,
    }
}

fn soak_of(count: &[u8]) -> Option<Command>
    ensures value { result ≡ spec.soak_of count.now }
    ensures sound { IfSome result spec.IsSound }
{
    match number_in(count, 1, 4_000_000) {
        Ok(count) => Some(Command::Soak(count)),
        Err(_) => None,
    }
}
