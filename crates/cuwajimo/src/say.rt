ghost use Rattle.std.specs.Prelude.{◌≡◌, IfErr, OnOk, Some, take};
ghost use Rattle.std.specs.Io.KnownBytes.{Appends};
ghost use Rattle.cuwajimo.specs.Printed.{needed, nothing_line, nothing_lines};
ghost use Rattle.cuwajimo.specs.Troubles.{CannotPrint};
ghost use Rattle.cuwajimo.specs.Answers.{host_said, told_words, lent_words, hex_text, met_words, parameters_words, done_words, goes_on, tells_buffer, wanted, lends};

use super::call::{Act, Call, HostAct};
use super::fnv::Sum;
use super::trouble::Trouble;
use desk::answer::Answer;
use host::fault::HostFault;
use message::parameters::Parameters;
use std::{fmt, io};
use transfer::report::REPORT_BYTES;

/// What a host's call came to: `segment 0: more, buffer 8192 9f5c2a0e4d7b8316`.
#[derive(Clone, Copy)]
pub struct HostSaid<'a> {
    pub(super) host: u8,
    pub(super) act: &'a HostAct,
    pub(super) answer: Answer,
    /// the buffer that the call lent, as it was left
    pub(super) buffer: &'a [u8],
}

impl HostSaid<'_> {
    /// Whether the line tells of the buffer: where the call lends one, and was made.
    fn tells_buffer(&self) -> bool
        ensures { result ≡ tells_buffer self.now.act.now self.now.answer }
    {
        self.act.lends() && !matches!(self.answer, Answer::NoTicket)
    }
}

impl fmt::Display for HostSaid<'_> {
    ghost output = { λ said. Some (host_said said) };

    fn fmt<W: fmt::Write>(&self, f: &mut fmt::Formatter<W>) -> fmt::Result {
        let host = self.host;
        let act = self.act;
        let told = Told(*self);
        if self.tells_buffer() {
            let lent = Lent(self.buffer);
            write!(f, "{act} {host}: {told}{lent}")
        } else {
            write!(f, "{act} {host}: {told}")
        }
    }
}

/// The words of a call's line.
#[derive(Clone, Copy)]
struct Told<'a>(HostSaid<'a>);

impl fmt::Display for Told<'_> {
    ghost output = { λ told. Some (told_words told.0.act.now told.0.answer told.0.buffer.now) };

    fn fmt<W: fmt::Write>(&self, f: &mut fmt::Formatter<W>) -> fmt::Result {
        let said = self.0;
        match said.answer {
            Answer::Refused(status) => write!(f, "refused {status}"),
            Answer::Done => Done(said).fmt(f),
            Answer::Execution => f.write_str(said.act.goes_on()),
            Answer::Report => f.write_str("report"),
            Answer::NoTicket => write!(f, "no {}ticket", said.act.wanted()),
            Answer::Notice(status) => status.fmt(f),
            Answer::Fault(met) => Met(met).fmt(f),
            Answer::Parameters(of) => Values(of).fmt(f),
            // no line of a script asks for these of a host
            Answer::Locks(_) | Answer::Activity(_) => Ok(()),
        }
    }
}

/// The words for a call that is done: a report's bytes, that there is no notice or no fault, or that it is done.
#[derive(Clone, Copy)]
struct Done<'a>(HostSaid<'a>);

impl fmt::Display for Done<'_> {
    ghost output = { λ done. Some (done_words done.0.act.now done.0.buffer.now) };

    fn fmt<W: fmt::Write>(&self, f: &mut fmt::Formatter<W>) -> fmt::Result {
        match self.0.act {
            HostAct::Report(_) => {
                let bytes = Hex(report_of(self.0.buffer));
                write!(f, "done {bytes}")
            }
            HostAct::Notice | HostAct::Fault => f.write_str("none"),
            _ => f.write_str("done"),
        }
    }
}

/// The report in the front of a buffer.
fn report_of(buffer: &[u8]) -> &[u8]
    ensures { result.now ≡ take 13 buffer.now }
{
    buffer.get(..REPORT_BYTES).unwrap_or(buffer)
}

/// Bytes, two hexadecimal digits each.
#[derive(Clone, Copy)]
struct Hex<'a>(&'a [u8]);

impl fmt::Display for Hex<'_> {
    ghost output = { λ hex. Some (hex_text hex.0.now) };

    fn fmt<W: fmt::Write>(&self, f: &mut fmt::Formatter<W>) -> fmt::Result {
        for byte in self.0 {
            write!(f, "{byte:02x}")?;
        }
        Ok(())
    }
}

/// What a line ends with whose call lent a buffer: how many bytes that has, and their hash.
#[derive(Clone, Copy)]
struct Lent<'a>(&'a [u8]);

impl fmt::Display for Lent<'_> {
    ghost output = { λ lent. Some (lent_words lent.0.now) };

    fn fmt<W: fmt::Write>(&self, f: &mut fmt::Formatter<W>) -> fmt::Result {
        let size = self.0.len();
        let sum = Sum::of(self.0);
        write!(f, ", buffer {size} {sum}")
    }
}

/// A host's fault: `damaged block 12 unit 0 address 12`.
#[derive(Clone, Copy)]
struct Met(HostFault);

impl fmt::Display for Met {
    ghost output = { λ met. Some (met_words met.0) };

    fn fmt<W: fmt::Write>(&self, f: &mut fmt::Formatter<W>) -> fmt::Result {
        let kind = self.0.fault.store.kind;
        let block = self.0.fault.store.block;
        let unit = self.0.unit;
        let address = self.0.address;
        write!(f, "{kind} block {block} unit {unit} address {address}")
    }
}

/// A host's parameters: `unit 0 address 28 length 4294967295`.
#[derive(Clone, Copy)]
struct Values(Parameters);

impl fmt::Display for Values {
    ghost output = { λ values. Some (parameters_words values.0) };

    fn fmt<W: fmt::Write>(&self, f: &mut fmt::Formatter<W>) -> fmt::Result {
        let Parameters {
            unit,
            address,
            length,
        } = self.0;
        write!(f, "unit {unit} address {address} length {length}")
    }
}

impl HostAct {
    /// The word for an execution ticket that it is answered with.
    fn goes_on(&self) -> &'static str
        ensures { result.now ≡ goes_on self.now }
    {
        match self {
            HostAct::Segment(_) => "more",
            _ => "execution",
        }
    }

    /// The kind of ticket that it takes, where it takes one of a kind.
    fn wanted(&self) -> &'static str
        ensures { result.now ≡ wanted self.now }
    {
        match self {
            HostAct::Segment(_) => "execution ",
            HostAct::Report(_) => "report ",
            _ => "",
        }
    }

    /// Whether it lends a buffer.
    fn lends(&self) -> bool
        ensures { result ≡ lends self.now }
    {
        matches!(self, HostAct::Segment(_) | HostAct::Report(_))
    }
}

impl Act {
    /// What it is asked of: the store that is left after `off`, or the device.
    fn needed(&self) -> &'static str
        ensures { result.now ≡ needed self.now }
    {
        match self {
            Act::Blocks { first: _, count: _ } | Act::Compare { pile: _, master: _ } | Act::Save =>
                "store",
            _ => "device",
        }
    }
}

/// What a call prints for which there is no device, or no store.
pub(super) fn nothing<W: io::Write>(out: &mut W, act: &Act) -> Result<(), Trouble>
    ensures printed { OnOk result (Appends (W.contents out.old) (W.contents out.new) (nothing_line act.now)) }
    ensures trouble { IfErr result CannotPrint }
{
    let needed = act.needed();
    writeln!(out, "{act}: no {needed}")?;
    Ok(())
}

/// The same of several calls, one after the other.
pub(super) fn nothing_of<W: io::Write>(out: &mut W, calls: &[Call]) -> Result<(), Trouble>
    ensures printed { OnOk result (Appends (W.contents out.old) (W.contents out.new) (nothing_lines calls.now)) }
    ensures trouble { IfErr result CannotPrint }
{
    for call in calls {
        nothing(out, &call.act)?;
    }
    Ok(())
}
