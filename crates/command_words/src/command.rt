//! Commands and their words.

ghost use Rattle.std.specs.Prelude.{◌≡◌, ◌∷◌, [], map, string_bytes};
ghost use Rattle.command_words.specs.Words.{command_of, over_bits_by, eager_by, at_by, story_by};

use text_lines::decimal;

/// How many operations a trace that is generated may have.
const MOST_GENERATED: u64 = 100_000;

/// How many steps may be asked for. A trace has no more.
const MOST_STEPS: u64 = 1_000_000;

/// A run that the program makes of a trace.
#[derive(Clone, Copy, Debug, PartialEq, Eq)]
pub enum Play {
    /// Runs a trace by the serial schedule, and reports.
    Serial,
    /// Runs a trace by the seeded schedule of a seed, and reports.
    Seeded { seed: u64 },
    /// Runs the trace's own steps, and reports.
    Replay,
    /// Runs a generated trace by the serial schedule, and sums up.
    Gen { count: u32, seed: u64 },
}

/// What the program shows of the run that a trace's own steps make.
#[derive(Clone, Copy, Debug, PartialEq, Eq)]
pub enum View {
    /// The state after the first steps of a trace.
    At { steps: u64 },
    /// The headers that a line has had.
    Story { line: u32 },
}

/// A run of the eager core that the program makes of a trace.
#[derive(Clone, Copy, Debug, PartialEq, Eq)]
pub enum EagerPlay {
    /// Runs a trace by the serial schedule, and reports.
    Serial,
    /// Runs the trace's own steps, and reports.
    Replay,
}

/// How the homes list the nodes that share a line.
#[derive(Clone, Copy, Debug, PartialEq, Eq)]
pub enum Lists {
    /// As linked lists, whose links come from one pool a home.
    Linked,
    /// As bit vectors, which cost no links.
    Bits,
}

/// What the program is asked to do.
#[derive(Clone, Copy, Debug, PartialEq, Eq)]
pub enum Command {
    /// Makes a run over lists of one kind, and prints it.
    Play(Play, Lists),
    /// Makes a run of the eager core, and prints it.
    Eager(EagerPlay),
    /// Runs the trace's own steps, and prints what is asked of that run.
    View(View),
    /// Judges a printed history by the trace before it.
    Check,
}

fn one_word(word: &str) -> Option<Command>
    ensures { result ≡ command_of (word.now ∷ []) }
{
    match word {
        "serial" => Some(Command::Play(Play::Serial, Lists::Linked)),
        "replay" => Some(Command::Play(Play::Replay, Lists::Linked)),
        "check" => Some(Command::Check),
        _ => None,
    }
}

fn over_bits(word: &str) -> Option<Command>
    ensures { result ≡ over_bits_by word.now }
{
    match word {
        "serial" => Some(Command::Play(Play::Serial, Lists::Bits)),
        "replay" => Some(Command::Play(Play::Replay, Lists::Bits)),
        _ => None,
    }
}

fn eager(word: &str) -> Option<Command>
    ensures { result ≡ eager_by word.now }
{
    match word {
        "serial" => Some(Command::Eager(EagerPlay::Serial)),
        "replay" => Some(Command::Eager(EagerPlay::Replay)),
        _ => None,
    }
}

fn at_steps(number: &str) -> Option<Command>
    ensures { result ≡ at_by number.now }
{
    let steps = decimal(number.as_bytes()).ok()?;
    if steps > MOST_STEPS {
        return None;
    }
    Some(Command::View(View::At { steps }))
}

fn story_of_line(number: &str) -> Option<Command>
    ensures { result ≡ story_by number.now }
{
    let line = decimal(number.as_bytes()).ok()?;
    if line > u64::from(u32::MAX) {
        return None;
    }
    let line = line as u32;
    Some(Command::View(View::Story { line }))
}

fn two_words(word: &str, number: &str) -> Option<Command>
    ensures { result ≡ command_of (word.now ∷ number.now ∷ []) }
{
    match word {
        "seeded" => {
            let seed = decimal(number.as_bytes()).ok()?;
            Some(Command::Play(Play::Seeded { seed }, Lists::Linked))
        }
        "bits" => over_bits(number),
        "eager" => eager(number),
        "at" => at_steps(number),
        "story" => story_of_line(number),
        _ => None,
    }
}

fn three_words(word: &str, count: &str, seed: &str) -> Option<Command>
    ensures { result ≡ command_of (word.now ∷ count.now ∷ seed.now ∷ []) }
{
    match word {
        "gen" => {
            let count = decimal(count.as_bytes()).ok()?;
            let seed = decimal(seed.as_bytes()).ok()?;
            if count > MOST_GENERATED {
                return None;
            }
            let count = count as u32;
            Some(Command::Play(Play::Gen { count, seed }, Lists::Linked))
        }
        _ => None,
    }
}

impl Command {
    /// The command that words name: `serial`, `seeded S`, `replay`, `gen K S`, `check`, `bits serial`, `bits replay`, `at T`, `story G`, `eager serial` or `eager replay`. They are matched whole. S is a decimal number below 2^64, K one up to 100,000, T one up to 1,000,000 and G one up to 4,294,967,295.
    pub fn of_words(words: &[String]) -> Option<Command>
        ensures { result ≡ command_of (map string_bytes words.now) }
    {
        match words {
            [word] => one_word(word),
            [word, number] => two_words(word, number),
            [word, count, seed] => three_words(word, count, seed),
            _ => None,
        }
    }
}
