//! Commands, as constants tell them.
ghost use Rattle.std.specs.Prelude.{IfSome};
ghost use Rattle.gl_options.specs.Sessions.{AreOfSession, CanRun};

use gl_event::{MAX_RING, MAX_THREADS};
use gl_filters::{Mode, Query};
use gl_options::{Command, Form, LiveOptions};
use gl_shards::MAX_SHARDS;

// A query has a mode, a most length and a most number of cycles, and is Full, 4 and 1,000 where it isn't told.
#[derive(Clone, Copy)]
pub(super) enum Ask {
    Predict(Mode, u32, u32),
    Json,
    Findings,
    // so many recorders and shards, and room for so many notes
    Live(u32, u32, u32),
    // the same with cycles of at most 16 edges
    LiveLong(u32, u32, u32),
    // the same with findings
    LiveFindings(u32, u32, u32),
    // over a text as it comes, of at most so many threads, with so many recorders, two shards and room for one note
    Stream(u32, u32),
    // the same with findings
    StreamFindings(u32, u32),
    Stats(Mode, u32, u32),
    Replay,
    Check,
}

pub(super) const PREDICTION: Ask = Ask::Predict(Mode::Full, 4, 1_000);

pub(super) const COUNTS: Ask = Ask::Stats(Mode::Full, 4, 1_000);

// A session with these numbers, over given lanes, or where it is told over a text as it comes. So many threads read.
fn live_options(
    query: Query,
    numbers: (u32, u32, u32),
    threads: Option<u32>,
    jobs: u32,
) -> Option<LiveOptions>
    ensures { IfSome result AreOfSession }
{
    let (recorders, shards, ring) = numbers;
    let most = threads.unwrap_or(64);
    if recorders == 0
        || shards == 0
        || shards > MAX_SHARDS
        || ring == 0
        || ring > MAX_RING
        || most == 0
        || most > MAX_THREADS
    {
        return None;
    }
    Some(LiveOptions {
        query,
        form: Form::Text,
        findings: false,
        recorders,
        shards,
        ring,
        stream: threads.is_some(),
        threads: most,
        jobs,
    })
}

// The same, with findings or without.
fn session(
    len: u32,
    numbers: (u32, u32, u32),
    threads: Option<u32>,
    findings: bool,
    jobs: u32,
) -> Option<Command>
    ensures { IfSome result CanRun }
{
    let query = Query::new(Mode::Full, len, 1_000).ok()?;
    let options = live_options(query, numbers, threads, jobs)?;
    Some(Command::Live(LiveOptions {
        findings,
        ..options
    }))
}

// A prediction over a whole text.
fn prediction(mode: Mode, len: u32, max: u32, form: Form, jobs: u32) -> Option<Command>
    ensures { IfSome result CanRun }
{
    let query = Query::new(mode, len, max).ok()?;
    Some(Command::Predict { query, form, jobs })
}

// Findings of a whole text.
fn whole_findings(jobs: u32) -> Option<Command>
    ensures { IfSome result CanRun }
{
    let query = Query::new(Mode::Full, 4, 1_000).ok()?;
    let form = Form::Text;
    Some(Command::Findings { query, form, jobs })
}

// Counts of a whole text.
fn counts(mode: Mode, len: u32, max: u32, jobs: u32) -> Option<Command>
    ensures { IfSome result CanRun }
{
    let query = Query::new(mode, len, max).ok()?;
    Some(Command::Stats { query, jobs })
}

// The command, where so many threads are to read. None where there is none with these numbers.
pub(super) fn command_of(ask: Ask, jobs: u32) -> Option<Command>
    ensures { IfSome result CanRun }
{
    match ask {
        Ask::Predict(mode, len, max) => prediction(mode, len, max, Form::Text, jobs),
        Ask::Json => prediction(Mode::Full, 4, 1_000, Form::Json, jobs),
        Ask::Findings => whole_findings(jobs),
        Ask::Live(recorders, shards, ring) => {
            session(4, (recorders, shards, ring), None, false, jobs)
        }
        Ask::LiveLong(recorders, shards, ring) => {
            session(16, (recorders, shards, ring), None, false, jobs)
        }
        Ask::LiveFindings(recorders, shards, ring) => {
            session(4, (recorders, shards, ring), None, true, jobs)
        }
        Ask::Stream(threads, recorders) => {
            session(4, (recorders, 2, 1), Some(threads), false, jobs)
        }
        Ask::StreamFindings(threads, recorders) => {
            session(4, (recorders, 2, 1), Some(threads), true, jobs)
        }
        Ask::Stats(mode, len, max) => counts(mode, len, max, jobs),
        Ask::Replay => Some(Command::Replay { jobs }),
        Ask::Check => Some(Command::Check { jobs }),
    }
}
