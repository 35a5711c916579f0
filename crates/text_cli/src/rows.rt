//! The rows of a picture: no two bars of a row overlap, and a bar is behind the one that holds
//! it up where that row is free.
use sol_base::OutOfMemory;
use std::alloc::Global;
use std::collections::BTreeMap;

/// A bar: one transaction, from its start to its end in units.
#[derive(Clone, Copy)]
pub(crate) struct Bar {
    /// The place of its transaction in the batch.
    pub(crate) position: u32,
    pub(crate) start: u64,
    pub(crate) units: u64,
    /// The place in the order of the one that holds it up, if any does.
    pub(crate) holder: Option<u32>,
    pub(crate) row: u32,
}

/// The rows that are free, and those that are not with the ends of their last bars.
#[derive(Drop)]
struct Rows {
    free: BTreeMap<u32, ()>,
    busy: BTreeMap<(u64, u32), ()>,
    count: u32,
}

impl Rows {
    /// Frees the rows whose last bar ends by the time.
    fn free_until(&mut self, time: u64) -> Result<(), OutOfMemory> {
        for _ in 0..self.busy.len() {
            match self.busy.first_key_value() {
                Some((last, _)) if last.0 <= time => {}
                _ => return Ok(()),
            }
            if let Some((last, _)) = self.busy.pop_first() {
                self.free.insert(last.1, ())?;
            }
        }
        Ok(())
    }

    /// A free row: the one that is wished for, else the least, else a new one.
    fn choose(&self, wished: Option<u32>) -> u32 {
        match wished {
            Some(row) if self.free.contains_key(&row) => row,
            _ => match self.free.first_key_value() {
                Some((row, _)) => *row,
                None => self.count,
            },
        }
    }

    /// Takes a row for a bar that ends so.
    fn take(&mut self, row: u32, end: u64) -> Result<(), OutOfMemory> {
        let _ = self.free.remove(&row);
        self.count = self.count.max(row.saturating_add(1));
        self.busy.insert((end, row), ())?;
        Ok(())
    }
}

/// The places of the bars by their starts, and of equal starts in their order.
fn by_start(alloc: Global, bars: &[Bar]) -> Result<Vec<(u64, u32)>, OutOfMemory> {
    let mut line = Vec::with_capacity(alloc, bars.len())?;
    let mut place = 0u32;
    for bar in bars {
        line.push((bar.start, place))?;
        place = place.saturating_add(1);
    }
    line.sort()?;
    Ok(line)
}

/// The row of the bar that holds up the one of a place, if any does.
fn wished_row(bars: &[Bar], place: usize) -> Option<u32> {
    let holder = bars.get(place)?.holder?;
    Some(bars.get(holder as usize)?.row)
}

/// Where the bar of a place ends.
fn end_of(bars: &[Bar], place: usize) -> u64 {
    match bars.get(place) {
        Some(bar) => bar.start.saturating_add(bar.units),
        None => 0,
    }
}

/// Gives each bar its row, and tells how many rows there are.
pub(crate) fn set_rows(alloc: Global, bars: &mut [Bar]) -> Result<u32, OutOfMemory> {
    let mut rows = Rows {
        free: BTreeMap::new(alloc),
        busy: BTreeMap::new(alloc),
        count: 0,
    };
    let line = by_start(alloc, bars)?;
    for (start, place) in &line {
        rows.free_until(*start)?;
        let place = *place as usize;
        let row = rows.choose(wished_row(bars, place));
        rows.take(row, end_of(bars, place))?;
        if let Some(bar) = bars.get_mut(place) {
            bar.row = row;
        }
    }
    Ok(rows.count)
}
