//! The picture of a block, as SVG: a bar for each transaction at its earliest start, long as its
//! units, and an edge from the one that holds it up. Places are in tenths of a pixel.
ghost use Rattle.std.specs.Prelude.{◌<◌};

use crate::rows::{Bar, set_rows};
use crate::shape::lanes_text;
use admission::Chosen;
use block_shape::{Shape, Waited, key_met};
use sol_base::{Blob, Key, OutOfMemory, key_text};
use std::alloc::Global;

/// The width of the longest chain.
const WIDTH: u64 = 12_000;

/// What is left free at each side.
const MARGIN: u64 = 200;

/// Where the rows begin: the heading, the colours and the scale are above them.
const TOP: u64 = 1_050;

/// How many fields of the legend are beside each other.
const COLUMNS: u64 = 4;

/// The colours of the keys that most wait at, of other keys, and of bars that wait for none.
const STYLE: &str =
    "<style>text{font:110px sans-serif}.g{stroke:#ddd;stroke-width:5}.e{fill:none;stroke:#555}.k0{fill:#4e79a7}.k1{fill:#f28e2b}.k2{fill:#e15759}.k3{fill:#76b7b2}.k4{fill:#59a14f}.k5{fill:#edc948}.k6{fill:#b07aa1}.k7{fill:#ff9da7}.k8{fill:#9c755f}.k9{fill:#bcd95f}.other{fill:#9a9a9a}.first{fill:#c6d5e8}</style>\n";

/// How places come from units and rows.
#[derive(Clone, Copy)]
struct Frame {
    longest: u64,
    /// The height of a row.
    row: u64,
    /// Where the last row ends.
    bottom: u64,
}

impl Frame {
    fn new(longest: u64, rows: u32) -> Frame {
        let row = row_height(rows);
        Frame {
            longest,
            row,
            bottom: u64::from(rows).saturating_mul(row).saturating_add(TOP),
        }
    }

    /// How wide some units are.
    fn wide(&self, units: u64) -> u64 {
        if self.longest == 0 {
            return 0;
        }
        units.saturating_mul(WIDTH) / self.longest
    }

    fn x(&self, units: u64) -> u64 {
        self.wide(units).saturating_add(MARGIN)
    }

    fn y(&self, row: u32) -> u64 {
        u64::from(row).saturating_mul(self.row).saturating_add(TOP)
    }

    /// The middle of a row.
    fn middle(&self, row: u32) -> u64 {
        self.y(row).saturating_add(self.row / 2)
    }
}

/// The height of a row: less where there are many.
fn row_height(rows: u32) -> u64 {
    match rows {
        0..=60 => 160,
        61..=400 => 50,
        401..=2_000 => 20,
        _ => 5,
    }
}

fn add(out: &mut Blob, text: &str) -> Result<(), OutOfMemory> {
    out.append(text.as_bytes())
}

/// The first digits of a key.
fn short(digits: &[u8; 64]) -> &[u8] {
    &digits[..8]
}

/// The bars of a block, each in its row, and how many rows there are.
fn bars_of(alloc: Global, order: &[Chosen], shape: &Shape) -> Result<(Vec<Bar>, u32), OutOfMemory> {
    let mut bars = Vec::with_capacity(alloc, order.len())?;
    let parts = order.iter().zip(&shape.starts).zip(&shape.holders);
    for ((chosen, start), holder) in parts {
        bars.push(Bar {
            position: chosen.position,
            start: *start,
            units: u64::from(chosen.budget.limit),
            holder: *holder,
            row: 0,
        })?;
    }
    let rows = set_rows(alloc, bars.as_mut_slice())?;
    Ok((bars, rows))
}

/// The first of 1, 2 and 5 times a power of ten of which at most twelve are in all units.
fn step_at(power: u64, longest: u64) -> Option<u64> {
    for digit in [1, 2, 5] {
        let step = power.saturating_mul(digit);
        if longest / 12 < step {
            return Some(step);
        }
    }
    None
}

/// The step of the scale.
fn step_of(longest: u64) -> u64 {
    let mut power = 1u64;
    for _ in 0..20 {
        if let Some(step) = step_at(power, longest) {
            return step;
        }
        power = power.saturating_mul(10);
    }
    power
}

/// A number of units in thousands or millions where it is whole.
fn units_text(alloc: Global, units: u64) -> Result<String, OutOfMemory> {
    let (thousands, millions) = (units / 1_000, units / 1_000_000);
    if units > 0 && units % 1_000_000 == 0 {
        Ok(format!(in alloc; "{millions} million")?)
    } else if units > 0 && units % 1_000 == 0 {
        Ok(format!(in alloc; "{thousands} thousand")?)
    } else {
        Ok(format!(in alloc; "{units}")?)
    }
}

/// Adds the scale of the units, a line for each step.
fn add_scale(alloc: Global, out: &mut Blob, frame: &Frame) -> Result<(), OutOfMemory> {
    let step = step_of(frame.longest);
    let (high, low, bottom) = (TOP - 60, TOP - 30, frame.bottom);
    for count in 0u64..=12 {
        let units = step.saturating_mul(count);
        if units > frame.longest {
            return Ok(());
        }
        let x = frame.x(units);
        let text = units_text(alloc, units)?;
        let text = text.as_str();
        let line = format!(in alloc;
            "<path class=\"g\" d=\"M{x} {low}V{bottom}\"/><text x=\"{x}\" y=\"{high}\">{text}</text>\n"
        )?;
        add(out, line.as_str())?;
    }
    Ok(())
}

/// Adds a coloured field of the legend, and begins the text beside it.
fn add_field(alloc: Global, out: &mut Blob, at: u64, class: &str) -> Result<(), OutOfMemory>
    requires { at < 12 }
{
    let x = MARGIN + (at % COLUMNS) * 3_000;
    let y = 330 + (at / COLUMNS) * 160;
    let (right, low) = (x + 150, y + 95);
    let line = format!(in alloc;
        "<path class=\"{class}\" d=\"M{x} {y}h100v100h-100z\"/><text x=\"{right}\" y=\"{low}\">"
    )?;
    add(out, line.as_str())
}

/// Adds the legend: what the colours mean.
fn add_legend(alloc: Global, out: &mut Blob, waited: &[Waited]) -> Result<(), OutOfMemory> {
    let mut at = 0u64;
    for Waited { key, count } in waited {
        let class = format!(in alloc; "k{at}")?;
        add_field(alloc, out, at % 12, class.as_str())?;
        let digits = key_text(key);
        out.append(b"<title>")?;
        out.append(&digits)?;
        out.append(b"</title>waits at ")?;
        out.append(short(&digits))?;
        add(out, format!(in alloc; ".. ({count} do)</text>\n")?.as_str())?;
        at = at.saturating_add(1);
    }
    add_field(alloc, out, at % 12, "other")?;
    out.append(b"waits at another key</text>\n")?;
    add_field(alloc, out, at.saturating_add(1) % 12, "first")?;
    out.append(b"waits for none</text>\n")
}

/// Adds the edges from the ends of bars to the starts of those that they hold up, in other rows.
fn add_edges(
    alloc: Global,
    out: &mut Blob,
    frame: &Frame,
    bars: &[Bar],
) -> Result<(), OutOfMemory> {
    let wide = (frame.row / 20).max(1);
    let head = format!(in alloc; "<path class=\"e\" stroke-width=\"{wide}\" d=\"")?;
    add(out, head.as_str())?;
    for bar in bars {
        let holder = match bar.holder {
            Some(holder) => bars.get(holder as usize),
            None => None,
        };
        if let Some(holder) = holder
            && holder.row != bar.row
        {
            let (x, from, to) = (
                frame.x(bar.start),
                frame.middle(holder.row),
                frame.middle(bar.row),
            );
            add(out, format!(in alloc; "M{x} {from}V{to}")?.as_str())?;
        }
    }
    out.append(b"\"/>\n")
}

/// Who holds up a bar, and at which key.
#[derive(Clone, Copy)]
struct Hold {
    position: u32,
    key: Key,
}

/// What holds up the transaction of a place, if anything does.
fn hold_of(order: &[Chosen], bar: &Bar, place: usize) -> Option<Hold> {
    let held = order.get(place)?;
    let holder = order.get(bar.holder? as usize)?;
    let key = key_met(holder.locks.as_slice(), held.locks.as_slice())?;
    Some(Hold {
        position: holder.position,
        key,
    })
}

/// The class of a bar, which is its colour.
fn class_of(alloc: Global, waited: &[Waited], hold: Option<Hold>) -> Result<String, OutOfMemory> {
    let Some(hold) = hold else {
        return Ok(String::from_str(alloc, "first")?);
    };
    match waited.iter().position(|waited| waited.key == hold.key) {
        Some(at) => Ok(format!(in alloc; "k{at}")?),
        None => Ok(String::from_str(alloc, "other")?),
    }
}

/// How wide a bar is shown: a little less than it is, so that the next one is apart.
fn shown_wide(frame: &Frame, bar: &Bar) -> u64 {
    let wide = frame.wide(bar.units);
    let gap = (wide / 10).min(10);
    wide.saturating_sub(gap).max(5)
}

/// Adds a bar, with what is told where a pointer rests on it.
fn add_bar(
    alloc: Global,
    out: &mut Blob,
    frame: &Frame,
    bar: &Bar,
    class: &str,
    hold: Option<Hold>,
) -> Result<(), OutOfMemory> {
    let (x, y) = (frame.x(bar.start), frame.y(bar.row));
    let (wide, tall) = (shown_wide(frame, bar), frame.row.saturating_mul(4) / 5);
    let (position, start, units) = (bar.position, bar.start, bar.units);
    let head = format!(in alloc;
        "<path class=\"{class}\" d=\"M{x} {y}h{wide}v{tall}h-{wide}z\"><title>transaction {position}: {units} units from {start}"
    )?;
    add(out, head.as_str())?;
    if let Some(Hold { position, key }) = hold {
        add(out, format!(in alloc; ", behind {position} at ")?.as_str())?;
        out.append(&key_text(&key))?;
    }
    out.append(b"</title></path>\n")
}

/// Adds the place of a transaction in the batch where its bar has room for it.
fn add_label(alloc: Global, out: &mut Blob, frame: &Frame, bar: &Bar) -> Result<(), OutOfMemory> {
    if frame.row < 160 || frame.wide(bar.units) < 400 {
        return Ok(());
    }
    let x = frame.x(bar.start).saturating_add(30);
    let y = frame.y(bar.row).saturating_add(105);
    let position = bar.position;
    let text = format!(in alloc; "<text x=\"{x}\" y=\"{y}\">{position}</text>\n")?;
    add(out, text.as_str())
}

fn add_bars(
    alloc: Global,
    out: &mut Blob,
    frame: &Frame,
    order: &[Chosen],
    bars: &[Bar],
    waited: &[Waited],
) -> Result<(), OutOfMemory> {
    for (place, bar) in bars.iter().enumerate() {
        let hold = hold_of(order, bar, place);
        let class = class_of(alloc, waited, hold)?;
        add_bar(alloc, out, frame, bar, class.as_str(), hold)?;
        add_label(alloc, out, frame, bar)?;
    }
    Ok(())
}

/// Adds the heading: the figures of the block.
fn add_heading(
    alloc: Global,
    out: &mut Blob,
    count: usize,
    shape: &Shape,
) -> Result<(), OutOfMemory> {
    let lanes = lanes_text(alloc, shape)?;
    let (depth, longest, units) = (shape.depth, shape.longest, shape.units);
    let text = format!(in alloc;
        "<text x=\"{MARGIN}\" y=\"200\" style=\"font-size:140px\">{count} transactions, at most {depth} in a chain; {units} units, at most {longest} in a chain; {lanes} lanes can pay</text>\n"
    )?;
    add(out, text.as_str())
}

/// The picture of the transactions in their order.
pub(crate) fn picture(
    alloc: Global,
    order: &[Chosen],
    shape: &Shape,
    waited: &[Waited],
) -> Result<Blob, OutOfMemory> {
    let (bars, rows) = bars_of(alloc, order, shape)?;
    let frame = Frame::new(shape.longest, rows);
    let (wide, tall) = (
        WIDTH + 2 * MARGIN + 600,
        frame.bottom.saturating_add(MARGIN),
    );
    let (width, height) = (wide / 10, tall / 10);
    let head = format!(in alloc;
        "<svg xmlns=\"http://www.w3.org/2000/svg\" viewBox=\"0 0 {wide} {tall}\" width=\"{width}\" height=\"{height}\">\n<path fill=\"#fff\" d=\"M0 0h{wide}v{tall}h-{wide}z\"/>\n"
    )?;
    let mut out = Blob::from_slice(alloc, head.as_bytes())?;
    add(&mut out, STYLE)?;
    add_heading(alloc, &mut out, order.len(), shape)?;
    add_legend(alloc, &mut out, waited)?;
    add_scale(alloc, &mut out, &frame)?;
    add_edges(alloc, &mut out, &frame, bars.as_slice())?;
    add_bars(alloc, &mut out, &frame, order, bars.as_slice(), waited)?;
    out.append(b"</svg>\n")?;
    Ok(out)
}
