ghost use Rattle.std.specs.Prelude.{◌≡◌, if◌then◌else◌, Some, None, is_some, slice_get};
ghost use Rattle.std.specs.Result.{result_ok};
ghost use Rattle.cuwajimo.specs.CallLines.{IsFilling, AsksFor, IsBlocks, IsCompare, IsCommonLine, IsCallOn, NamesHostAct, NamesCommon, NamesCall};
ghost use Rattle.cuwajimo.specs.Calls.{host_act_name, act_name, is_off_act};
ghost use Rattle.cuwajimo.specs.Lines.{line_words};
ghost use Rattle.cuwajimo.specs.Readings.{Reads, ReadsInMemory, ReadsNamed, ReadsNamedInMemory};
ghost use Rattle.cuwajimo.specs.Troubles.{Blamed};

use super::line::Line;
use super::trouble::Trouble;
use layer::run::Run;
use std::fmt;

/// The bytes that a buffer is made of: so many, these over and over, or zero if there are none.
#[derive(Drop)]
pub struct Filling {
    pub size: u32,
    pub bytes: Vec<u8>,
}

/// What is asked for one host.
#[derive(Drop)]
pub enum HostAct {
    Command(Vec<u8>),
    Segment(Filling),
    Report(Filling),
    Cancel,
    Clear,
    Notice,
    Fault,
    Params,
}

/// A call on what the building lines built.
#[derive(Drop)]
pub enum Act {
    Host { host: u8, act: HostAct },
    Locks,
    Activity,
    Off,
    Blocks { first: u32, count: u32 },
    /// a run of the pile's blocks with one of the master's
    Compare { pile: Run, master: Run },
    Save,
}

/// A call, and the line that it stands on.
#[derive(Drop)]
pub struct Call {
    pub line: u32,
    pub act: Act,
}

/// The word that its line begins with.
impl fmt::Display for HostAct {
    ghost output = { λ act. Some (host_act_name act) };

    fn fmt<W: fmt::Write>(&self, f: &mut fmt::Formatter<W>) -> fmt::Result {
        f.write_str(match self {
            HostAct::Command(_) => "command",
            HostAct::Segment(_) => "segment",
            HostAct::Report(_) => "report",
            HostAct::Cancel => "cancel",
            HostAct::Clear => "clear",
            HostAct::Notice => "notice",
            HostAct::Fault => "fault",
            HostAct::Params => "params",
        })
    }
}

/// The word that its line begins with.
impl fmt::Display for Act {
    ghost output = { λ act. Some (act_name act) };

    fn fmt<W: fmt::Write>(&self, f: &mut fmt::Formatter<W>) -> fmt::Result {
        match self {
            Act::Host { host: _, act } => act.fmt(f),
            Act::Locks => f.write_str("locks"),
            Act::Activity => f.write_str("activity"),
            Act::Off => f.write_str("off"),
            Act::Blocks { first: _, count: _ } => f.write_str("blocks"),
            Act::Compare { pile: _, master: _ } => f.write_str("compare"),
            Act::Save => f.write_str("save"),
        }
    }
}

impl Act {
    /// Whether it powers the device off.
    pub(super) fn is_off(&self) -> bool
        ensures { result ≡ is_off_act self.now }
    {
        matches!(self, Act::Off)
    }
}

/// `SIZE HEX`, after the host.
fn size_and_hex(line: Line<'_>) -> Result<Filling, Trouble>
    ensures { ReadsInMemory line.entry.spot.line (IsFilling (line_words line.entry)) result }
{
    Ok(Filling {
        size: line.number(2)?,
        bytes: line.hex(3)?,
    })
}

/// A call with nothing after so many words.
fn alone<T: Drop>(line: Line<'_>, words: usize, act: T) -> Result<Option<T>, Trouble>
    ensures value { result_ok result ≡ (if is_some (slice_get (line_words line.entry) words) then None else Some (Some act)) }
    ensures line { Blamed line.entry.spot.line result }
{
    line.end(words)?;
    Ok(Some(act))
}

/// What a line asks for its host, or none where its first word is no such call's.
fn host_act(line: Line<'_>) -> Result<Option<HostAct>, Trouble>
    ensures { ReadsNamedInMemory line.entry.spot.line (NamesHostAct (line_words line.entry)) (AsksFor (line_words line.entry)) result }
{
    match line.first() {
        Some("command") => Ok(Some(HostAct::Command(line.hex(2)?))),
        Some("segment") => Ok(Some(HostAct::Segment(size_and_hex(line)?))),
        Some("report") => Ok(Some(HostAct::Report(size_and_hex(line)?))),
        Some("cancel") => alone(line, 2, HostAct::Cancel),
        Some("clear") => alone(line, 2, HostAct::Clear),
        Some("notice") => alone(line, 2, HostAct::Notice),
        Some("fault") => alone(line, 2, HostAct::Fault),
        Some("params") => alone(line, 2, HostAct::Params),
        _ => Ok(None),
    }
}

/// A call of no host, or none.
fn common_act(line: Line<'_>) -> Result<Option<Act>, Trouble>
    ensures { ReadsNamed line.entry.spot.line (NamesCommon (line_words line.entry)) (IsCommonLine (line_words line.entry)) result }
{
    match line.first() {
        Some("locks") => alone(line, 1, Act::Locks),
        Some("activity") => alone(line, 1, Act::Activity),
        Some("off") => alone(line, 1, Act::Off),
        Some("save") => alone(line, 1, Act::Save),
        Some("blocks") => Ok(Some(blocks(line)?)),
        Some("compare") => Ok(Some(compare(line)?)),
        _ => Ok(None),
    }
}

/// `blocks F N`
fn blocks(line: Line<'_>) -> Result<Act, Trouble>
    ensures { Reads line.entry.spot.line (IsBlocks (line_words line.entry)) result }
{
    let first = line.number(1)?;
    let count = line.number(2)?;
    line.end(3)?;
    Ok(Act::Blocks { first, count })
}

/// `compare F N G M`
fn compare(line: Line<'_>) -> Result<Act, Trouble>
    ensures { Reads line.entry.spot.line (IsCompare (line_words line.entry)) result }
{
    let pile = Run {
        first: line.number(1)?,
        count: line.number(2)?,
    };
    let master = Run {
        first: line.number(3)?,
        count: line.number(4)?,
    };
    line.end(5)?;
    Ok(Act::Compare { pile, master })
}

/// A call's line, or none where its first word is no call's.
pub(super) fn read_call(line: Line<'_>) -> Result<Option<Call>, Trouble>
    ensures { ReadsNamedInMemory line.entry.spot.line (NamesCall (line_words line.entry)) (IsCallOn line.entry.spot.line (line_words line.entry)) result }
{
    let act = match host_act(line)? {
        Some(act) => Some(Act::Host {
            host: line.number(1)?,
            act,
        }),
        None => common_act(line)?,
    };
    let line = line.spot.line;
    Ok(act.map(|act| Call { line, act }))
}
