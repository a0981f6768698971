ghost use Rattle.std.specs.Prelude.{◌≡◌, not, is_some, is_ok, IsSomeAnd, None};
ghost use Rattle.cuwajimo.specs.BuildLines.{IsFlat, IsRaw, IsRawInMemory, IsMaster, IsRun, IsUnit, IsSingle, IsAny, IsOverImage, IsOfDevice, Builds};
ghost use Rattle.cuwajimo.specs.Lines.{line_words};
ghost use Rattle.cuwajimo.specs.Plans.{first_set, FillAdded};
ghost use Rattle.cuwajimo.specs.Readings.{Reads, ReadsInMemory};
ghost use Rattle.cuwajimo.specs.Troubles.{Blamed};

use super::line::Line;
use super::plan::{Fill, MasterSource, Plan, Source};
use super::trouble::{Spot, Trouble};
use super::words::is_number;
use flex::geometry::Geometry;
use flex::unit::Unit;
use layer::run::Run;
use store::fault::Protection;

/// `flat N`, or `flat DATA MAP`.
fn flat(line: Line<'_>) -> Result<Source, Trouble>
    ensures { ReadsInMemory line.entry.spot.line (IsFlat line.entry.spot.line (line_words line.entry)) result }
{
    if is_number(line.word(1)?) {
        let blocks = line.number(1)?;
        line.end(2)?;
        return Ok(Source::Flat { blocks });
    }
    let bytes = line.file(1)?;
    let damage = line.file(2)?;
    line.end(3)?;
    Ok(Source::FlatFiles { bytes, damage })
}

/// `raw T R S0 .. ST-1`, or `raw DATA SPARES R`.
fn raw(line: Line<'_>) -> Result<Source, Trouble>
    ensures { ReadsInMemory line.entry.spot.line (IsRaw line.entry.spot.line (line_words line.entry)) result }
{
    if is_number(line.word(1)?) {
        return raw_in_memory(line);
    }
    let bytes = line.file(1)?;
    let spares = line.file(2)?;
    let records = line.number(3)?;
    line.end(4)?;
    Ok(Source::RawFiles {
        bytes,
        spares,
        records,
    })
}

fn raw_in_memory(line: Line<'_>) -> Result<Source, Trouble>
    ensures { ReadsInMemory line.entry.spot.line (IsRawInMemory (line_words line.entry)) result }
{
    let tracks = line.number::<u32>(1)?;
    let records = line.number(2)?;
    let spares = line.numbers(3)?;
    if spares.len() != tracks as usize {
        return Err(
            line.spot
                .trouble("there is not one spare place for each track"),
        );
    }
    Ok(Source::Raw { records, spares })
}

/// `master N P`, or `master FILE`.
fn master(line: Line<'_>) -> Result<MasterSource, Trouble>
    ensures { ReadsInMemory line.entry.spot.line (IsMaster line.entry.spot.line (line_words line.entry)) result }
{
    if is_number(line.word(1)?) {
        let blocks = line.number(1)?;
        let pattern = line.number(2)?;
        line.end(3)?;
        return Ok(MasterSource::Pattern { blocks, pattern });
    }
    let file = line.file(1)?;
    line.end(2)?;
    Ok(MasterSource::File(file))
}

/// A layer's run, of which there is at most one.
// That a second is refused is said before its numbers are read, so `set_once` does not serve.
fn run(line: Line<'_>, earlier: Option<Run>) -> Result<Option<Run>, Trouble>
    ensures { Reads line.entry.spot.line (λ r. (earlier ≡ None) × IsSomeAnd r (IsRun (line_words line.entry))) result }
{
    if earlier.is_some() {
        return Err(line.spot.trouble("a second layer of one kind"));
    }
    let first = line.number(1)?;
    let count = line.number(2)?;
    line.end(3)?;
    Ok(Some(Run { first, count }))
}

/// `unit F C D S`
fn unit(line: Line<'_>) -> Result<Unit, Trouble>
    ensures { Reads line.entry.spot.line (IsUnit (line_words line.entry)) result }
{
    let unit = Unit {
        first: line.number(1)?,
        geometry: Geometry {
            cylinders: line.number(2)?,
            heads: line.number(3)?,
            sectors: line.number(4)?,
        },
    };
    line.end(5)?;
    Ok(unit)
}

/// A line with one number after its first word.
fn single(line: Line<'_>) -> Result<u32, Trouble>
    ensures { Reads line.entry.spot.line (IsSingle (line_words line.entry)) result }
{
    let n = line.number(1)?;
    line.end(2)?;
    Ok(n)
}

/// Sets what there is at most one of.
fn set_once<T: Drop>(
    spot: Spot,
    slot: &mut Option<T>,
    value: T,
    second: &str,
) -> Result<(), Trouble>
    ensures answer { is_ok result ≡ not (is_some slot.old) }
    ensures after { slot.new ≡ first_set slot.old value }
    ensures line { Blamed spot.line result }
{
    if slot.is_some() {
        return Err(spot.trouble(second));
    }
    *slot = Some(value);
    Ok(())
}

/// Adds what is to be done to the image, which stands before it.
fn add_fill(spot: Spot, plan: &mut Plan, fill: Fill) -> Result<(), Trouble>
    ensures value { FillAdded plan.old fill plan.new result }
    ensures line { Blamed spot.line result }
{
    if plan.source.is_none() {
        return Err(spot.trouble("no image yet"));
    }
    plan.fills.push(fill)?;
    Ok(())
}

impl Plan {
    /// Adds what a building line says.
    pub(super) fn read(&mut self, line: Line<'_>) -> Result<(), Trouble>
        ensures { Builds IsAny line.entry.spot.line (line_words line.entry) self.old self.new result }
    {
        match line.first() {
            Some("flat") => self.set_source(line.spot, flat(line)?),
            Some("raw") => self.set_source(line.spot, raw(line)?),
            Some("pattern") => add_fill(line.spot, self, Fill::Pattern(single(line)?)),
            Some("master") => self.set_master(line.spot, master(line)?),
            Some("damage") => add_fill(line.spot, self, Fill::Damage(line.numbers(1)?)),
            _ => self.read_layer(line),
        }
    }

    fn set_source(&mut self, spot: Spot, source: Source) -> Result<(), Trouble>
        ensures answer { is_ok result ≡ not (is_some self.old.source) }
        ensures after { self.new ≡ record self.old { source = first_set self.old.source source } }
        ensures line { Blamed spot.line result }
    {
        set_once(spot, &mut self.source, source, "a second image")
    }

    fn set_master(&mut self, spot: Spot, master: MasterSource) -> Result<(), Trouble>
        ensures answer { is_ok result ≡ not (is_some self.old.master) }
        ensures after { self.new ≡ record self.old { master = first_set self.old.master master } }
        ensures line { Blamed spot.line result }
    {
        set_once(spot, &mut self.master, master, "a second master")
    }

    fn read_layer(&mut self, line: Line<'_>) -> Result<(), Trouble>
        ensures { Builds IsOverImage line.entry.spot.line (line_words line.entry) self.old self.new result }
    {
        match line.first() {
            Some("protect") => {
                line.end(1)?;
                self.protection = Protection::Protected;
                Ok(())
            }
            Some("window") => {
                self.window = run(line, self.window)?;
                Ok(())
            }
            Some("guard") => {
                self.guard = run(line, self.guard)?;
                Ok(())
            }
            Some("cache") => {
                line.end(1)?;
                self.cache = true;
                Ok(())
            }
            _ => self.read_map(line),
        }
    }

    fn read_map(&mut self, line: Line<'_>) -> Result<(), Trouble>
        ensures { Builds IsOfDevice line.entry.spot.line (line_words line.entry) self.old self.new result }
    {
        match line.first() {
            Some("unit") => {
                self.units.push(unit(line)?)?;
                Ok(())
            }
            Some("end") => {
                self.end = single(line)?;
                Ok(())
            }
            Some("device") => {
                self.device = single(line)?;
                Ok(())
            }
            Some(other) => Err(line.spot.about("unknown word", other)),
            None => Ok(()),
        }
    }
}
