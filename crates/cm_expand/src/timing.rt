// When the scans of a command begin and when their conversions come.
ghost use Rattle.std.specs.Prelude.{◌≡◌, ◌<◌, ◌≤◌, ◌+◌, ◌-◌, ◌*◌, ◌%◌, ◌^◌, ◌∷◌, ◌++◌, ℕ, suc, true, length, slice_index, slice_get, flat_map, IfSome, MatchOption, MatchResult, option_map};
ghost use Rattle.std.specs.List.Sorted.{IsStrictlyIncreasing};
ghost use Rattle.cm_expand.specs.Timing.{IsTiming, first, times, scan, begins_from};
ghost use Rattle.cm_expand.specs.TimePoint.{IsCut, IsTimePoint, begin_edges, convert_edges, rest_from, rest_of};

use crate::conv::TooMany;

/// When a scan may begin.
#[derive(Clone, Copy)]
pub enum Begins<'a> {
    Every(u64),
    OnEdges(&'a [u64]),
    AnyTime,
}

/// When the conversions of a scan come.
#[derive(Clone, Copy)]
pub enum Converts<'a> {
    AtOnce,
    Spaced(u64),
    PerEdge(&'a [u64]),
}

/// What decides the times of a command's conversions.
#[derive(Clone, Copy)]
pub struct Timing<'a> {
    pub start: u64,
    pub begins: Begins<'a>,
    pub converts: Converts<'a>,
    pub per_scan: u32,
    pub most: u64,
    pub until: u64,
    pub horizon: u64,
}

/// A conversion, with what the next one is found from.
#[derive(Clone, Copy)]
pub struct TimePoint {
    pub time: u64,
    pub index: u32,
    pub begin: u64,
    pub left: u64,
    pub begin_at: usize,
    pub convert_at: usize,
}

/// What comes next in a timing.
#[derive(Clone, Copy)]
pub enum Next {
    /// A conversion.
    At(TimePoint),
    /// Nothing: no scan begins any more.
    Done,
    /// Nothing: a scan lacks its next conversion, which has no time.
    Cut,
}

// A time at which a scan begins, with its place among the edges.
#[derive(Clone, Copy)]
pub struct Begin {
    pub time: u64,
    pub at: usize,
}

// How long after the begin of each scan its last conversion comes, and the scan's end.
#[derive(Clone, Copy)]
struct Extent {
    last: u64,
    end: u64,
}

// The first time not below `from` that is a number of periods from `last`.
#[inline(always)]
fn tick_from(last: u64, period: u64, from: u64) -> u64
    requires last { last ≤ from }
    requires some { 1 ≤ period }
    requires short { period < 2 ^ 32 }
    requires small { from < 2 ^ 62 }
    ensures tick { (result - last) % period ≡ 0 }
    ensures since { last ≤ result }
    ensures low { from ≤ result }
    ensures high { result < from + period }
{
    if from == last {
        last
    } else if from <= last + period {
        last + period
    } else {
        last + (from - last).div_ceil(period) * period
    }
}

// The place of the first edge not below a time, from a place on before which all edges are below it.
#[inline(never)]
fn cut(edges: &[u64], from: usize, time: u64) -> usize
    requires rise { IsStrictlyIncreasing edges.now }
    requires within { from ≤ length edges.now }
    requires below { (k : ℕ) → k < from → slice_index edges.now k < time }
    ensures { IsCut edges.now result time }
{
    let mut at = from;
    while at < edges.len() && edges[at] < time {
        at += 1;
    }
    at
}

// The first edge not below a time.
#[inline(always)]
pub(crate) fn edge_from(edges: &[u64], at: usize, from: u64) -> Option<Begin>
    requires rise { IsStrictlyIncreasing edges.now }
    requires within { at ≤ length edges.now }
    requires below { (k : ℕ) → k < at → slice_index edges.now k < from }
    ensures { MatchOption result
        ((k : ℕ) → k < length edges.now → slice_index edges.now k < from)
        (λ b. IsCut edges.now b.at from × (b.at < length edges.now) × (b.time ≡ slice_index edges.now b.at)) }
{
    let at = cut(edges, at, from);
    if at < edges.len() {
        Some(Begin {
            time: edges[at],
            at,
        })
    } else {
        None
    }
}

impl Timing<'_> {
    ghost use Rattle.cm_expand.specs.Timing.{IsTiming, soonest, first, conversion, up_to, scan_end};
    ghost use Rattle.cm_expand.specs.Timing.{scan, are_full, next_begin, begins_from, begins, times};
    ghost use Rattle.cm_expand.specs.TimingView.{timing_text};
    ghost use Rattle.cm_expand.specs.Extent.{IsExtent};
    ghost use Rattle.cm_expand.specs.TimePoint.{IsCut, begin_edges, convert_edges, IsBegin, IsTick, IsSoonest, IsTimePoint};
    ghost use Rattle.cm_expand.specs.TimePoint.{IfAt, full_from, full_of, rest_from, rest_of, scans_from};

    // The first time not below `from` at which a scan may begin, as one may at `last`.
    #[inline(always)]
    fn soonest(&self, at: usize, last: u64, from: u64) -> Option<Begin>
        requires timing { IsTiming (timing_text self.now) }
        requires since { self.now.start ≤ last }
        requires last { last ≤ from }
        requires tick { IsTick (timing_text self.now).begins self.now.start last }
        requires small { from < 2 ^ 62 }
        requires within { at ≤ length (begin_edges (timing_text self.now).begins) }
        requires passed { (k : ℕ) → k < at → slice_index (begin_edges (timing_text self.now).begins) k < from }
        ensures { MatchOption result
            (soonest (timing_text self.now).begins self.now.start from ≡ None)
            (λ b. IsSoonest (timing_text self.now).begins self.now.start from b.time b.at) }
    {
        match self.begins {
            Begins::Every(period) => Some(Begin {
                time: tick_from(last, period, from),
                at: 0,
            }),
            Begins::OnEdges(edges) => edge_from(edges, at, from),
            Begins::AnyTime => Some(Begin { time: from, at: 0 }),
        }
    }

    // When the first scan not below `from` begins, where an earlier one may begin at `last`.
    #[inline(always)]
    fn begin_from(&self, at: usize, last: u64, from: u64) -> Option<Begin>
        requires timing { IsTiming (timing_text self.now) }
        requires since { self.now.start ≤ last }
        requires last { last ≤ from }
        requires tick { IsTick (timing_text self.now).begins self.now.start last }
        requires small { from < 2 ^ 62 }
        requires within { at ≤ length (begin_edges (timing_text self.now).begins) }
        requires passed { (k : ℕ) → k < at → slice_index (begin_edges (timing_text self.now).begins) k < from }
        ensures first { option_map (λ b. b.time) result ≡ first (timing_text self.now) from }
        ensures begin { IfSome result (λ b. IsBegin (timing_text self.now) b.time b.at) }
        ensures low { IfSome result (λ b. from ≤ b.time) }
    {
        let begin = self.soonest(at, last, from)?;
        if begin.time < self.until {
            Some(begin)
        } else {
            None
        }
    }

    // The first conversion of a scan, with its place among the edges.
    #[inline(always)]
    fn first_conversion(&self, begin: u64, convert_at: usize) -> Option<Begin>
        requires timing { IsTiming (timing_text self.now) }
        requires small { begin < self.now.until }
        requires within { convert_at ≤ length (convert_edges (timing_text self.now).converts) }
        requires passed { (k : ℕ) → k < convert_at → slice_index (convert_edges (timing_text self.now).converts) k < begin }
        ensures { MatchOption result
            (conversion (timing_text self.now) begin 0 ≡ None)
            (λ found. (conversion (timing_text self.now) begin 0 ≡ Some found.time) × IsCut (convert_edges (timing_text self.now).converts) found.at begin) }
    {
        match self.converts {
            Converts::PerEdge(edges) => edge_from(edges, convert_at, begin),
            _ => Some(Begin { time: begin, at: 0 }),
        }
    }

    // The conversion after one of the same scan.
    #[inline(always)]
    fn later_conversion(&self, point: &TimePoint) -> Option<u64>
        requires timing { IsTiming (timing_text self.now) }
        requires point { IsTimePoint (timing_text self.now) point.now }
        ensures { result ≡ conversion (timing_text self.now) point.now.begin (point.now.index + 1) }
    {
        match self.converts {
            Converts::AtOnce => Some(point.time),
            Converts::Spaced(gap) => self.up_to_horizon(point.time + gap),
            Converts::PerEdge(edges) => edge_at(edges, point.convert_at + point.index as usize + 1),
        }
    }

    #[inline(always)]
    fn up_to_horizon(&self, time: u64) -> Option<u64>
        ensures { result ≡ up_to self.now.horizon (Some time) }
    {
        if time <= self.horizon {
            Some(time)
        } else {
            None
        }
    }

    // The end of the scan whose last conversion this is.
    #[inline(always)]
    fn end_of_scan(&self, point: &TimePoint) -> u64
        requires timing { IsTiming (timing_text self.now) }
        requires point { IsTimePoint (timing_text self.now) point.now }
        requires last { point.now.index + 1 ≡ self.now.per_scan }
        ensures end { scan_end (timing_text self.now).converts self.now.per_scan point.now.begin ≡ Some result }
        ensures later { point.now.begin < result }
        ensures small { result < 2 ^ 62 }
    {
        match self.converts {
            Converts::AtOnce => point.time + 1,
            Converts::Spaced(gap) => point.time + gap,
            Converts::PerEdge(_) => point.time + 1,
        }
    }

    // The first conversion of a scan, with `left` scans to come after it.
    #[inline(always)]
    fn scan_at(&self, begin: &Begin, convert_at: usize, left: u64) -> Next
        requires timing { IsTiming (timing_text self.now) }
        requires begin { IsBegin (timing_text self.now) begin.now.time begin.now.at }
        requires within { convert_at ≤ length (convert_edges (timing_text self.now).converts) }
        requires passed { (k : ℕ) → k < convert_at → slice_index (convert_edges (timing_text self.now).converts) k < begin.now.time }
        ensures point { IfAt result (λ point. IsTimePoint (timing_text self.now) point) }
        ensures index { IfAt result (λ point. point.index ≡ 0) }
        ensures full { full_of (timing_text self.now) result ≡ are_full (timing_text self.now) (begin.now.time ∷ begins_from (timing_text self.now) left (next_begin (timing_text self.now) begin.now.time)) }
        ensures rest { rest_of (timing_text self.now) result ≡ scan (timing_text self.now) begin.now.time ++ scans_from (timing_text self.now) left (next_begin (timing_text self.now) begin.now.time) }
    {
        match self.first_conversion(begin.time, convert_at) {
            None => Next::Cut,
            Some(found) => Next::At(TimePoint {
                time: found.time,
                index: 0,
                begin: begin.time,
                left,
                begin_at: begin.at,
                convert_at: found.at,
            }),
        }
    }

    // The first conversion of the next scan, after the last one of a scan.
    #[inline(always)]
    fn next_scan(&self, point: &TimePoint) -> Next
        requires timing { IsTiming (timing_text self.now) }
        requires point { IsTimePoint (timing_text self.now) point.now }
        requires last { point.now.index + 1 ≡ self.now.per_scan }
        ensures point { IfAt result (λ next. IsTimePoint (timing_text self.now) next) }
        ensures index { IfAt result (λ next. next.index ≡ 0) }
        ensures full { full_of (timing_text self.now) result ≡ are_full (timing_text self.now) (begins_from (timing_text self.now) point.now.left (next_begin (timing_text self.now) point.now.begin)) }
        ensures rest { rest_of (timing_text self.now) result ≡ scans_from (timing_text self.now) point.now.left (next_begin (timing_text self.now) point.now.begin) }
    {
        if point.left == 0 {
            return Next::Done;
        }
        let end = self.end_of_scan(point);
        match self.begin_from(point.begin_at, point.begin, end) {
            None => Next::Done,
            Some(begin) => self.scan_at(&begin, point.convert_at, point.left - 1),
        }
    }

    // The next conversion of the same scan.
    #[inline(always)]
    fn next_in_scan(&self, point: &TimePoint) -> Next
        requires timing { IsTiming (timing_text self.now) }
        requires point { IsTimePoint (timing_text self.now) point.now }
        requires more { point.now.index + 1 < self.now.per_scan }
        ensures point { IfAt result (λ next. IsTimePoint (timing_text self.now) next) }
        ensures index { IfAt result (λ next. next.index ≡ point.now.index + 1) }
        ensures full { full_from (timing_text self.now) point.now ≡ full_of (timing_text self.now) result }
        ensures rest { rest_from (timing_text self.now) point.now ≡ point.now.time ∷ rest_of (timing_text self.now) result }
    {
        match self.later_conversion(point) {
            None => Next::Cut,
            Some(time) => Next::At(TimePoint {
                time,
                index: point.index + 1,
                ..*point
            }),
        }
    }

    /// The conversion after this one.
    #[inline(always)]
    pub fn following(&self, point: &TimePoint) -> Next
        requires timing { IsTiming (timing_text self.now) }
        requires point { IsTimePoint (timing_text self.now) point.now }
        ensures index { IfAt result (λ next. next.index ≡ (point.now.index + 1) % self.now.per_scan) }
        ensures point { IfAt result (λ next. IsTimePoint (timing_text self.now) next) }
        ensures full { full_from (timing_text self.now) point.now ≡ full_of (timing_text self.now) result }
        ensures rest { rest_from (timing_text self.now) point.now ≡ point.now.time ∷ rest_of (timing_text self.now) result }
    {
        if point.index + 1 < self.per_scan {
            self.next_in_scan(point)
        } else {
            self.next_scan(point)
        }
    }

    /// How many conversions there are, where that isn't above a limit.
    pub fn count(&self, limit: u64) -> Result<u64, TooMany>
        requires { IsTiming (timing_text self.now) }
        ensures { MatchResult result (λ count. (count ≡ length (times (timing_text self.now))) × (count ≤ limit)) (λ _. limit < length (times (timing_text self.now))) }
    {
        match self.whole_ticks() {
            Some(count) if count <= limit => Ok(count),
            Some(_) => Err(TooMany),
            None => self.walked(limit),
        }
    }

    // How many conversions there are, where that is told by numbers alone: scans of up to a period
    // that begin in that period, `most` of them, all whole by the horizon.
    fn whole_ticks(&self) -> Option<u64>
        requires { IsTiming (timing_text self.now) }
        ensures { IfSome result (λ count. count ≡ length (times (timing_text self.now))) }
    {
        let Begins::Every(period) = self.begins else {
            return None;
        };
        let extent = self.extent()?;
        let room = self.room(extent.last)?;
        if extent.end <= period && self.most - 1 <= room / period {
            Some(self.most * u64::from(self.per_scan))
        } else {
            None
        }
    }

    // The extent of each scan, where no edges decide it.
    fn extent(&self) -> Option<Extent>
        requires { IsTiming (timing_text self.now) }
        ensures { IfSome result (λ extent. IsExtent (timing_text self.now) extent.last extent.end) }
    {
        match self.converts {
            Converts::AtOnce => Some(Extent { last: 0, end: 1 }),
            Converts::Spaced(gap) => {
                let last = (u64::from(self.per_scan) - 1) * gap;
                Some(Extent {
                    last,
                    end: last + gap,
                })
            }
            Converts::PerEdge(_) => None,
        }
    }

    // How long after the start a scan may begin before `until` whose last conversion, `last` after
    // its begin, comes by the horizon.
    fn room(&self, last: u64) -> Option<u64>
        ensures { IfSome result (λ room. (self.now.start + room < self.now.until) × (self.now.start + room + last ≤ self.now.horizon)) }
    {
        let before_end = self.until.checked_sub(1)?;
        let whole = self.horizon.checked_sub(last)?;
        before_end.min(whole).checked_sub(self.start)
    }

    // What `count` gives, by going through all conversions.
    fn walked(&self, limit: u64) -> Result<u64, TooMany>
        requires { IsTiming (timing_text self.now) }
        ensures { MatchResult result (λ count. (count ≡ length (times (timing_text self.now))) × (count ≤ limit)) (λ _. limit < length (times (timing_text self.now))) }
    {
        let mut next = self.first_point();
        let mut count = 0;
        while let Next::At(point) = next {
            if count == limit {
                return Err(TooMany);
            }
            count += 1;
            next = self.following(&point);
        }
        Ok(count)
    }

    /// The first conversion of all.
    pub(crate) fn first_point(&self) -> Next
        requires { IsTiming (timing_text self.now) }
        ensures point { IfAt result (λ point. IsTimePoint (timing_text self.now) point) }
        ensures index { IfAt result (λ point. point.index ≡ 0) }
        ensures full { full_of (timing_text self.now) result ≡ are_full (timing_text self.now) (begins (timing_text self.now)) }
        ensures rest { rest_of (timing_text self.now) result ≡ times (timing_text self.now) }
    {
        match self.begin_from(0, self.start, self.start) {
            None => Next::Done,
            Some(begin) => self.scan_at(&begin, 0, self.most - 1),
        }
    }
}

fn edge_at(edges: &[u64], at: usize) -> Option<u64>
    ensures { result ≡ slice_get edges.now at }
{
    if at < edges.len() {
        Some(edges[at])
    } else {
        None
    }
}
