// The rings of watched lines.
ghost use Rattle.std.specs.Prelude.{◌≡◌, ◌<◌, length, map, IfOk};
ghost use Rattle.std.specs.List.{All};
ghost use Rattle.cm_client.specs.Progress.{Accepts};
ghost use Rattle.cm_text.specs.SampleText.{CanReport, no_lines};
ghost use Rattle.cm_block.specs.Whole.{line_format};
ghost use Rattle.cm_job.specs.Calls.{cmd_of};
ghost use Rattle.cm_job.specs.RunLines.{CanRun};
ghost use Rattle.cm_job.specs.WatchLines.{IsWatched};
ghost use Rattle.cm_watch.specs.Opened.{AreFor, line_start, stream_start};
ghost use Rattle.cm_watch.specs.Places.{ArePlaced};
ghost use Rattle.cm_watch.specs.Watched.{AreRead};
ghost use Rattle.cm_watch.specs.Woken.{every_of};

use crate::events::LineEvents;
use crate::side::{BoardSide, LineBoard};
use cm_base::transfer::NoMemory;
use cm_block::whole::text_for;
use cm_board::board::BoardDesc;
use cm_client::opening::{PacedRing, open_paced};
use cm_client::words::WordSource;
use cm_expand::call::plan_of;
use cm_expand::plan::Plan;
use cm_job::line::RunLine;
use cm_signal::signals::Signals;
use cm_stream::stream::ScanStream;
use cm_sub::owners::Owners;
use cm_text::sample_text::SampleText;
use std::alloc::Global;

/// The side of a line for its own expansion.
pub type Side<'o, 'a> = BoardSide<'o, Plan<'a>, WordSource<'a>>;

// A line's side, what its workers wait for, its stream, and the lines of its samples.
#[derive(Drop)]
struct OpenedLine<'o, 'a> {
    side: Side<'o, 'a>,
    events: LineEvents,
    stream: ScanStream<Plan<'a>>,
    text: SampleText<'a>,
}

/// The sides of some lines, and for each what its workers wait for, a stream, and the lines of its
/// samples.
#[derive(Drop)]
pub struct Opened<'o, 'a> {
    pub sides: Vec<Side<'o, 'a>>,
    pub events: Vec<LineEvents>,
    pub streams: Vec<ScanStream<Plan<'a>>>,
    pub texts: Vec<SampleText<'a>>,
}

// What the workers of a line wait for.
fn events_of(board: &BoardDesc, signals: &Signals, line: &RunLine) -> LineEvents
    requires { CanRun board.now signals.now line.now }
    ensures { result.every ≡ every_of board.now signals.now line.now }
{
    LineEvents::new(plan_of(board, signals, line).sub().buffer)
}

// Opens the ring of a line, with a stream of its scans and the lines of its samples, before the first.
fn open_line<'o, 'a>(
    alloc: Global,
    owners: &'o Owners,
    board: &'a BoardDesc,
    signals: &'a Signals,
    line: &'a RunLine,
) -> Result<OpenedLine<'o, 'a>, NoMemory>
    requires run { CanRun board.now signals.now line.now }
    requires watch { IsWatched board.now line.now }
    ensures side { IfOk result (λ o. o.side.board.sub < length board.entry.now.subs) }
    ensures own { IfOk result (λ o. o.side.board.sub ≡ (cmd_of line.entry.now).sub) }
    ensures owners { IfOk result (λ o. o.side.board.owners.now ≡ owners.entry.now) }
    ensures munger { IfOk result (λ o. o.side.munger.table ≡ o.stream.reader.table) }
    ensures events { IfOk result (λ o. o.events.every ≡ every_of board.entry.now signals.entry.now line.entry.now) }
    ensures stream { IfOk result (λ o. stream_start o.stream ≡ line_start board.entry.now signals.entry.now line.entry.now) }
    ensures text { IfOk result (λ o. o.text ≡ no_lines (line_format board.entry.now signals.entry.now line.entry.now)) }
    ensures report { IfOk result (λ o. Accepts (CanReport o.text) (line_start board.entry.now signals.entry.now line.entry.now).ring) }
{
    let events = events_of(board, signals, line);
    let text = text_for(alloc, board, signals, line)?;
    let plan = plan_of(board, signals, line);
    let cmd = line.cmd();
    let PacedRing {
        board,
        munger,
        reader,
    } = open_paced(alloc, plan, cmd)?;
    let scan = cmd.cmd().list.len() as u32;
    let stream = ScanStream::new(alloc, reader, scan);
    let side = BoardSide {
        board: LineBoard::new(board, line.sub(), owners),
        munger,
    };
    Ok(OpenedLine {
        side,
        events,
        stream,
        text,
    })
}

/// Opens the rings of some lines, whose boards claim their subdevices at these owners.
pub(crate) fn open_lines<'o, 'a>(
    alloc: Global,
    owners: &'o Owners,
    board: &'a BoardDesc,
    signals: &'a Signals,
    lines: &'a [RunLine],
) -> Result<Opened<'o, 'a>, NoMemory>
    requires run { All (CanRun board.now signals.now) lines.now }
    requires watched { All (IsWatched board.now) lines.now }
    requires places { length owners.now.channels ≡ length board.now.subs }
    ensures sides { IfOk result (λ o. ArePlaced owners.entry.now o.sides.items) }
    ensures own { IfOk result (λ o. map (λ side. side.board.sub) o.sides.items ≡ map (λ line. (cmd_of line).sub) lines.entry.now) }
    ensures count { IfOk result (λ o. length o.sides.items ≡ length lines.entry.now) }
    ensures mungers { IfOk result (λ o. map (λ side. side.munger.table) o.sides.items ≡ map (λ s. s.reader.table) o.streams.items) }
    ensures events { IfOk result (λ o. length o.events.items ≡ length lines.entry.now) }
    ensures every { IfOk result (λ o. map (λ events. events.every) o.events.items ≡ map (every_of board.entry.now signals.entry.now) lines.entry.now) }
    ensures start { IfOk result (λ o. AreFor board.entry.now signals.entry.now lines.entry.now o.streams.items o.texts.items) }
    ensures read { IfOk result (λ o. AreRead o.streams.items o.texts.items) }
{
    let mut opened = Opened {
        sides: Vec::new(alloc),
        events: Vec::new(alloc),
        streams: Vec::new(alloc),
        texts: Vec::new(alloc),
    };
    for i in 0..lines.len() {
        let OpenedLine {
            side,
            events,
            stream,
            text,
        } = open_line(alloc, owners, board, signals, &lines[i])?;
        opened.sides.push(side)?;
        opened.streams.push(stream)?;
        opened.texts.push(text)?;
        opened.events.push(events)?;
    }
    Ok(opened)
}
