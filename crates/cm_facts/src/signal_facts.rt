// What is known of the signals at a board's inputs.
ghost use Rattle.std.specs.Prelude.{◌≡◌, ◌<◌, ◌≤◌, ◌++◌, flat_map, OnOk};
ghost use Rattle.cm_facts.specs.SignalFacts as spec;

use crate::bounds::wave_bounds;
use crate::fact::{FactWord, put_fact};
use crate::names::wave_name;
use cm_base::transfer::NoMemory;
use cm_signal::signals::{Signals, Slope};
use cm_signal::wave::WaveAt;

/// Appends the facts of signals.
pub(crate) fn put_signals(text: &mut Vec<u8>, signals: &Signals) -> Result<(), NoMemory>
    ensures { OnOk result (text.new.items ≡ text.old.items ++ spec.signal_facts signals.now) }
{
    put_fact(text, b"horizon", &[], &[FactWord::Number(signals.horizon)])?;
    put_waves(text, &signals.waves)?;
    put_lines(text, signals, 64)
}

// Appends the waves of channels.
fn put_waves(text: &mut Vec<u8>, waves: &[WaveAt]) -> Result<(), NoMemory>
    ensures { OnOk result (text.new.items ≡ text.old.items ++ flat_map spec.wave_fact waves.now) }
{
    for wave in waves {
        put_wave(text, wave)?;
    }
    Ok(())
}

fn put_wave(text: &mut Vec<u8>, wave: &WaveAt) -> Result<(), NoMemory>
    ensures { OnOk result (text.new.items ≡ text.old.items ++ spec.wave_fact wave.now) }
{
    let (least, greatest) = wave_bounds(&wave.wave);
    let words = [
        FactWord::Fixed(wave_name(&wave.wave)),
        FactWord::Signed(least),
        FactWord::Signed(greatest),
    ];
    put_fact(text, b"wave", &[wave.sub, wave.chan], &words)
}

// Appends the edges of so many external lines.
#[tactic(auto, unfolding(crate::specs::SignalFacts::line_facts))]
fn put_lines(text: &mut Vec<u8>, signals: &Signals, count: u32) -> Result<(), NoMemory>
    requires { count ≤ 64 }
    ensures { OnOk result (text.new.items ≡ text.old.items ++ spec.line_facts count signals.now) }
{
    for line in 0..count {
        put_line(text, signals, line)?;
    }
    Ok(())
}

// Appends how often an external line rises and falls, if it does.
fn put_line(text: &mut Vec<u8>, signals: &Signals, line: u32) -> Result<(), NoMemory>
    requires { line < 64 }
    ensures { OnOk result (text.new.items ≡ text.old.items ++ spec.edge_fact signals.now line) }
{
    let rises = signals.line(Slope::Rise, line).len() as u64;
    let falls = signals.line(Slope::Fall, line).len() as u64;
    if rises + falls == 0 {
        return Ok(());
    }
    put_fact(
        text,
        b"edges",
        &[line],
        &[FactWord::Number(rises), FactWord::Number(falls)],
    )
}
