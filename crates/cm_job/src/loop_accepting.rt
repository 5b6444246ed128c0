// A loop whose commands their subdevices accept, by the rules over both.
ghost use Rattle.std.specs.Prelude.{◌≡◌, ◌≤◌, true, false, length, IfOk};
ghost use Rattle.cm_base.specs.Reading.{seen};
ghost use Rattle.cm_expand.specs.Items.{items_of};
ghost use Rattle.cm_expand.specs.PlanView.{plan_text};
ghost use Rattle.cm_job.specs.LoopJob.{IsCalled};
ghost use Rattle.cm_job.specs.LoopPart as spec;

use crate::accepting::accepted;
use crate::ahead::{MOST, is_ahead};
use crate::loop_asked::AskedLoop;
use crate::loop_line::LoopLine;
use cm_base::faults::Fault;
use cm_board::board::BoardDesc;
use cm_expand::call::plan_at;
use cm_expand::plan::Plan;
use cm_expand::rule::is_raw;
use cm_signal::signals::Signals;

/// The line that asks for this. It is Bad where the first command isn't one of an input that passes
/// its test or the second isn't one of an output, then where one asks for raw words, then where the
/// lists differ in length. Then it is Limit where a command has more than a million conversions, and
/// at last Bad where an output doesn't come later than the sample of its place.
pub(crate) fn accept_loop(
    board: &BoardDesc,
    signals: &Signals,
    asked: AskedLoop,
) -> Result<LoopLine, Fault>
    requires input { length asked.input.list ≤ 1024 }
    requires output { length asked.output.list ≤ 1024 }
    requires t_in { asked.t_in ≤ signals.now.horizon }
    requires t_out { asked.t_out ≤ signals.now.horizon }
    ensures { result ≡ spec.ruled_line board.now signals.now asked }
{
    let line = accept_both(board, asked)?;
    ask_rules(board, signals, &line)?;
    Ok(line)
}

// The line, where the subdevices accept both commands.
fn accept_both(board: &BoardDesc, asked: AskedLoop) -> Result<LoopLine, Fault>
    requires input { length asked.input.list ≤ 1024 }
    requires output { length asked.output.list ≤ 1024 }
    ensures { result ≡ spec.called_of board.now asked }
{
    let AskedLoop {
        t_in,
        t_out,
        window,
        input,
        output,
    } = asked;
    let input = accepted(board, false, input)?;
    let output = accepted(board, true, output)?;
    Ok(LoopLine {
        t_in,
        t_out,
        window,
        input,
        output,
    })
}

// Asks the rules over both commands, one after another.
fn ask_rules(board: &BoardDesc, signals: &Signals, line: &LoopLine) -> Result<(), Fault>
    requires input { IsCalled board.now signals.now false line.now.t_in line.now.input }
    requires output { IsCalled board.now signals.now true line.now.t_out line.now.output }
    ensures { seen (λ u. line.now) result ≡ spec.ruled board.now signals.now line.now }
{
    if !is_matched(line) {
        return Err(Fault::Bad);
    }
    let input = plan_at(board, signals, line.t_in, &line.input);
    let output = plan_at(board, signals, line.t_out, &line.output);
    if !is_short(&input) || !is_short(&output) {
        return Err(Fault::Limit);
    }
    if is_ahead(input, output) {
        Ok(())
    } else {
        Err(Fault::Bad)
    }
}

// Whether neither command asks for raw words, and both lists have the same length.
fn is_matched(line: &LoopLine) -> bool
    ensures { result ≡ spec.is_matched line.now }
{
    let input = line.input.cmd();
    let output = line.output.cmd();
    !is_raw(input.flags) && !is_raw(output.flags) && input.list.len() == output.list.len()
}

// Whether a command has up to a million conversions.
#[tactic(auto, using(crate::proofs::LoopRules::few_short, crate::proofs::LoopRules::many_not_short))]
fn is_short(plan: &Plan<'_>) -> bool
    ensures { result ≡ spec.is_short (plan_text plan.now) }
{
    match plan.bound(MOST) {
        Ok(_) => true,
        Err(_) => false,
    }
}
