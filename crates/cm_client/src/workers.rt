// A worker in a thread of its own.
ghost use Rattle.cm_client.specs.declared.workers.Worker.{Worker};
ghost use Rattle.cm_client.specs.Streamed.{EndsTruly, HasMungedAll};

use cm_ring::munger::Munger;
use cm_ring::writer::Closed;
use cm_sample::planned::Planned;
use std::sync::Wait;
use std::thread;
use std::thread::{Promise, Threads};

/// What a ring's writer gives: an end that is true.
#[derive(Clone, Copy)]
pub struct TrueEnd;

impl<P: Planned> Promise<Closed<P>> for TrueEnd {
    ghost kept_by = { λ _ closed. EndsTruly closed };
}

// The same with how it waited.
impl<P: Planned, W> Promise<(Closed<P>, W)> for TrueEnd {
    ghost kept_by = { λ _ given. EndsTruly given.0 };
}

/// What a munger's worker gives: a munger that has found the end, and munged all up to it.
#[derive(Clone, Copy)]
pub struct AllMunged;

impl<P: Planned> Promise<Munger<P>> for AllMunged {
    ghost kept_by = { λ _ munger. HasMungedAll munger };
}

// The same with how it waited.
impl<P: Planned, W> Promise<(Munger<P>, W)> for AllMunged {
    ghost kept_by = { λ _ given. HasMungedAll given.0 };
}

/// What became of a worker that was to have a thread of its own.
#[derive(Clone, Copy, Debug, PartialEq, Eq)]
pub enum Worker {
    /// It has its thread.
    Started,
    /// No thread could be made for it.
    Refused,
}

/// Calls a worker in a thread of its own and the rest in this one, and gives what both give. The rest
/// learns at once what became of the worker; where that was refused, it is called after the rest. The
/// worker has ended when it returns, and gives what it promises.
pub fn with_worker<
    R: Threads + Wait,
    A: Send + Drop,
    B,
    P: Promise<A> + Drop,
    F: FnOnce() -> A + Send,
    G: FnOnce(Worker) -> B,
>(rt: &R, promise: P, worker: F, rest: G) -> (A, B)
    requires worker { F.pre worker }
    requires keeps { (given : A) → F.post worker given → P.kept_by promise given }
    requires rest { (became : Worker) → G.pre rest became }
    ensures worker { P.kept_by promise result.0 }
    ensures rest { (became : Worker) × G.post rest became result.1 }
{
    thread::scope(
        thread::scope_env(),
        rt,
        move |scope| -> (A, B)
            requires { F.pre worker × ((given : A) → F.post worker given → P.kept_by promise given) × ((became : Worker) → G.pre rest became) }
            ensures { P.kept_by promise result.0 × ((became : Worker) × G.post rest became result.1) }
        {
            match scope.spawn_with(promise, worker) {
                Ok(handle) => {
                    let others = rest(Worker::Started);
                    (handle.join(rt), others)
                }
                Err(refused) => {
                    let others = rest(Worker::Refused);
                    ((refused.value)(), others)
                }
            }
        },
    )
}
