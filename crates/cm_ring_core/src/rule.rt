// The rule that every step of a shared ring keeps.
use crate::view::View;
use atomic_table::TableRule;
use cm_sample::planned::Planned;
use cm_sample::rule::MungeRule;
use std::marker::PhantomData;

/// What a ring is opened with.
#[derive(Drop)]
pub struct OpenedWith<P> {
    /// The number of cells, from 1 to 65,536.
    pub size: u64,
    pub rule: MungeRule,
    /// Whether the writer waits for room instead of ending with an overrun.
    pub paced: bool,
    /// The number at which the shared counts start.
    pub base: u32,
    /// The samples that the writer puts.
    pub plan: P,
}

/// The rule of a ring, for the table that keeps its words.
pub struct RingRule<P> {
    plan: PhantomData<P>,
}

impl<P: Planned> TableRule<(), View, OpenedWith<P>> for RingRule<P> {
    ghost use Rattle.cm_ring_core.specs.Lawful.{Lawful, constants_of, opened};

    ghost holds = { λ key. Lawful (constants_of P.samples key) };

    ghost first = { λ key. opened (constants_of P.samples key) };
}
