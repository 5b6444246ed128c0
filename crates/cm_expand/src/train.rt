// Conversions at even distances.

use crate::timing::{Begins, Converts, TimePoint, Timing};

/// Conversions of one list entry, of which each comes a step after the one before.
#[derive(Clone, Copy)]
pub struct Train {
    pub count: usize,
    /// In nanoseconds.
    pub step: u64,
    pub last: TimePoint,
}

impl Timing<'_> {
    ghost use Rattle.std.specs.Prelude.{◌≡◌, ◌<◌, ◌≤◌, ◌^◌, IfSome};
    ghost use Rattle.cm_expand.specs.Timing.{IsTiming};
    ghost use Rattle.cm_expand.specs.TimingView.{timing_text};
    ghost use Rattle.cm_expand.specs.TimePoint.{IsTimePoint};
    ghost use Rattle.cm_expand.specs.Train.{IsEven, IsTrain, IsWidth};

    /// The next conversions, from a point on, that come at even distances and by a time: `most` of them
    /// at most, and one at least. Scans of several conversions give one alone, and so do edges.
    #[inline(always)]
    pub(crate) fn train(&self, point: &TimePoint, time: u64, most: usize) -> Train
        requires timing { IsTiming (timing_text self.now) }
        requires point { IsTimePoint (timing_text self.now) point.now }
        requires come { point.now.time ≤ time }
        requires some { 1 ≤ most }
        ensures train { IsTrain (timing_text self.now) point.now result }
        ensures most { result.count ≤ most }
        ensures come { result.last.time ≤ time }
        ensures step { result.step < 2 ^ 32 }
    {
        let Some(period) = self.even_period() else {
            return Train {
                count: 1,
                step: 0,
                last: *point,
            };
        };
        let limit = time.min(self.until - 1);
        let most_after = point.left.min(most as u64 - 1);
        let after = ((limit - point.time) / period).min(most_after);
        Train {
            count: after as usize + 1,
            step: period,
            last: TimePoint {
                time: point.time + after * period,
                begin: point.begin + after * period,
                left: point.left - after,
                ..*point
            },
        }
    }

    // The period of scans of one conversion that each start a period after the one before.
    #[inline(always)]
    fn even_period(&self) -> Option<u64>
        requires { IsTiming (timing_text self.now) }
        ensures { IfSome result (IsEven (timing_text self.now)) }
    {
        let Begins::Every(period) = self.begins else {
            return None;
        };
        if self.per_scan != 1 {
            return None;
        }
        let width = self.width()?;
        if width <= period { Some(period) } else { None }
    }

    // How long a scan of one conversion takes, where no edges decide it.
    #[inline(always)]
    fn width(&self) -> Option<u64>
        requires timing { IsTiming (timing_text self.now) }
        requires one { self.now.per_scan ≡ 1 }
        ensures { IfSome result (IsWidth (timing_text self.now)) }
    {
        match self.converts {
            Converts::AtOnce => Some(1),
            Converts::Spaced(gap) => Some(gap),
            Converts::PerEdge(_) => None,
        }
    }
}
