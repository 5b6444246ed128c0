// A whole soak, from its number to its text.
ghost use Rattle.std.specs.Prelude.{◌≡◌, ◌≤◌, IfOk};
ghost use Rattle.cm_run.specs.Soak.{soak_text};

use crate::soak::job::soak_job;
use crate::soak::soaking::soak;
use crate::soak::text::put_soak;
use cm_base::gate::Gate;
use cm_base::transfer::NoMemory;
use std::alloc::Global;
use std::sync::Wait;
use std::thread::Threads;

/// Streams a job of `n` conversions, 1 to 4,000,000, and gives the text of the soak: for each
/// subdevice how many samples its client read, and their sum.
pub fn soak_whole<R: Threads + Wait + Sync, G: Gate + Sync>(
    rt: &R,
    alloc: Global,
    n: u32,
    gate: &G,
) -> Result<Vec<u8>, NoMemory>
    requires { (1 ≤ n) × (n ≤ 4000000) }
    ensures { IfOk result (λ text. text.items ≡ soak_text n) }
{
    let job = soak_job(alloc, n)?;
    let soaked = soak(rt, alloc, n, &job, gate)?;
    let mut text = Vec::new(alloc);
    put_soak(&mut text, n, &soaked.summary)?;
    Ok(text)
}
